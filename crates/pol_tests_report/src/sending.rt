//! A report that is sent, with an item longer than two pieces of 4,096 bytes, and sinks that fail within it.
use pol_base::{ClassName, NoMemory, Numbers, Values};
use pol_nogood::{Log, Nogood, Step};
use pol_outside::{MemorySink, WriteFault};
use pol_report::{Item, printable, send_head, send_item, send_last};
use std::alloc::Global;
use std::process::Abort;
use std::test::Fail;

const STEPS: u32 = 600;

/// The text of an item: its first line, and so many times its step.
const FIRST: &[u8] = b"instance a no nu4 600\n";

const STEP: &[u8] = b"c 2 1 7 0 2 3 4\n";

/// At the edges of the pieces, and one byte less than the text.
const ROOMS: [usize; 7] = [0, 1, 4095, 4096, 4097, 8192, 9621];

#[test]
fn sinks_without_room_for_a_long_log(rt: HostRuntime) -> Result<(), Fail> {
    let item = item(&rt, rt.alloc())?;
    let text = text(rt.alloc())?;
    assert_eq!(rt; text.as_slice().len(), 9622);
    for room in ROOMS {
        let mut sink = MemorySink::new(rt.alloc(), room, 100, &[])?;
        assert_eq!(rt;
            send_printable(&rt, &mut sink, &item),
            Err(WriteFault),
            "at {room}"
        );
        assert_eq!(rt;
            Some(sink.bytes()),
            text.as_slice().get(..room),
            "at {room}"
        );
    }
    Ok(())
}

#[test]
fn writes_that_fail_within_a_long_log(rt: HostRuntime) -> Result<(), Fail> {
    let item = item(&rt, rt.alloc())?;
    let text = text(rt.alloc())?;
    for number in 0..3 {
        let failing = [number];
        let mut sink = MemorySink::new(rt.alloc(), 10_000, 10_000, &failing)?;
        assert_eq!(rt;
            send_printable(&rt, &mut sink, &item),
            Err(WriteFault),
            "at {number}"
        );
        assert!(rt; text.as_slice().starts_with(sink.bytes()), "at {number}");
        assert!(rt; sink.bytes().len() < text.as_slice().len(), "at {number}");
    }
    Ok(())
}

#[test]
fn a_long_report_byte_by_byte(rt: HostRuntime) -> Result<(), Fail> {
    let item = item(&rt, rt.alloc())?;
    let mut sink = MemorySink::new(rt.alloc(), 10_000, 1, &[])?;
    assert_eq!(rt; send_head(&mut sink), Ok(()));
    assert_eq!(rt; send_printable(&rt, &mut sink, &item), Ok(()));
    assert_eq!(rt; send_last(&mut sink), Ok(()));
    let mut report = Values::from_slice(rt.alloc(), b"polyanna-report 1\n")?;
    report.append(text(rt.alloc())?.as_slice())?;
    report.append(b"end\n")?;
    assert_eq!(rt; sink.bytes(), report.as_slice());
    Ok(())
}

fn send_printable(
    rt: &impl Abort,
    sink: &mut MemorySink<'_>,
    item: &Item,
) -> Result<(), WriteFault> {
    assert!(rt; printable(item));
    send_item(sink, item)
}

fn text(alloc: Global) -> Result<Values, NoMemory> {
    let mut text = Values::from_slice(alloc, FIRST)?;
    for _ in 0..STEPS {
        text.append(STEP)?;
    }
    Ok(text)
}

fn item(rt: &impl Abort, alloc: Global) -> Result<Item, NoMemory> {
    let mut log = Log::new(alloc);
    for _ in 0..STEPS {
        assert!(rt; log.len() < STEPS);
        let mut nogood = Nogood::new();
        nogood.push(7, 0);
        let refs = Numbers::from_slice(alloc, &[3, 4])?;
        log.push(Step::ByConstraint { c: 2, nogood, refs })?;
    }
    let name = Values::from_slice(alloc, b"a")?;
    let kind = ClassName::Nu4;
    Ok(Item::NoLog { name, kind, log })
}

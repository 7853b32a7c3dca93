//! Reading and writing in full, in memory and over readers and writers that fail at a given call.
use pol_outside::{
    Failed, MemorySink, MemorySource, ReaderSource, Source, TakeFault, WriteFault, WriterSink,
    read_all, write_all,
};
use std::io;
use std::io::{BufWriter, Read, Write};

/// Moves at most two bytes a call. The call of this number, counted from 0, fails.
#[derive(Drop)]
struct Slow<S> {
    stream: S,
    failing: u32,
    calls: u32,
}

impl<S> Slow<S> {
    fn new(stream: S, failing: u32) -> Slow<S> {
        Slow {
            stream,
            failing,
            calls: 0,
        }
    }

    fn call(&mut self) -> io::Result<()> {
        let number = self.calls;
        self.calls = number.saturating_add(1);
        if number == self.failing {
            return Err(io::Error::from(io::ErrorKind::BrokenPipe));
        }
        Ok(())
    }
}

impl<R: Read> Read for Slow<R> {
    fn read(&mut self, into: &mut [u8]) -> io::Result<usize> {
        self.call()?;
        let most = into.len().min(2);
        self.stream.read(&mut into[..most])
    }
}

impl<W: Write> Write for Slow<W> {
    fn write(&mut self, piece: &[u8]) -> io::Result<usize> {
        self.call()?;
        let most = piece.len().min(2);
        self.stream.write(&piece[..most])
    }

    fn flush(&mut self) -> io::Result<()> {
        self.call()?;
        self.stream.flush()
    }
}

#[test]
fn the_limit_is_the_most_that_is_read(rt: HostRuntime) {
    for chunk in [1, 3] {
        let mut short = MemorySource::new(b"abcd", chunk, &[]);
        let taken = read_all(rt.alloc(), &mut short, 4);
        assert!(rt; matches!(&taken, Ok(bytes) if bytes.as_slice() == b"abcd".as_slice()));

        let mut long = MemorySource::new(b"abcde", chunk, &[]);
        let taken = read_all(rt.alloc(), &mut long, 4);
        assert!(rt; matches!(&taken, Err(TakeFault::TooLong)));
    }
}

#[test]
fn a_failed_read_ends_the_reading(rt: HostRuntime) {
    let mut source = MemorySource::new(b"abcde", 3, &[1]);
    let taken = read_all(rt.alloc(), &mut source, 100);
    assert!(rt; matches!(&taken, Err(TakeFault::ReadFault)));

    let mut rest = [0u8; 8];
    assert_eq!(rt; source.read(&mut rest), Ok(2));
    assert_eq!(rt; &rest[..2], b"de".as_slice());
}

#[test]
fn room_ends_the_writing(rt: HostRuntime) {
    let mut sink = MemorySink::new(rt.alloc(), 10, 4, &[]).expect(&rt, "memory");
    assert_eq!(rt; write_all(&mut sink, b"twelve bytes"), Err(WriteFault));
    assert_eq!(rt; sink.bytes(), b"twelve byt".as_slice());
}

#[test]
fn a_reader_is_read_to_its_end(rt: HostRuntime) {
    let mut source = ReaderSource::new(b"abcde".as_slice());
    let taken = read_all(rt.alloc(), &mut source, 5);
    assert!(rt; matches!(&taken, Ok(bytes) if bytes.as_slice() == b"abcde".as_slice()));
}

#[test]
fn a_writer_without_room_is_a_fault(rt: HostRuntime) {
    let mut held = [0u8; 8];
    let mut sink = WriterSink::new(held.as_mut_slice());
    assert_eq!(rt; write_all(&mut sink, b"eight"), Ok(()));
    assert_eq!(rt; sink.finish(), Ok(()));
    assert_eq!(rt; write_all(&mut sink, b" bytes"), Err(WriteFault));
    assert_eq!(rt; held.as_slice(), b"eight by".as_slice());
}

#[test]
fn an_error_of_the_reader_is_a_fault_and_reading_goes_on(rt: HostRuntime) {
    let mut source = ReaderSource::new(Slow::new(b"abcde".as_slice(), 1));
    let taken = read_all(rt.alloc(), &mut source, 5);
    assert!(rt; matches!(&taken, Err(TakeFault::ReadFault)));
    let taken = read_all(rt.alloc(), &mut source, 5);
    assert!(rt; matches!(&taken, Ok(bytes) if bytes.as_slice() == b"cde".as_slice()));
}

#[test]
fn an_error_of_the_writer_is_a_fault_and_writing_goes_on(rt: HostRuntime) {
    let mut held = [0u8; 4];
    let mut sink = WriterSink::new(Slow::new(held.as_mut_slice(), 1));
    assert_eq!(rt; write_all(&mut sink, b"abcde"), Err(WriteFault));
    assert_eq!(rt; write_all(&mut sink, b"fg"), Ok(()));
    assert_eq!(rt; held.as_slice(), b"abfg".as_slice());
}

#[test]
fn a_short_write_is_carried_on(rt: HostRuntime) {
    let mut held = [0u8; 5];
    let mut sink = WriterSink::new(Slow::new(held.as_mut_slice(), 3));
    assert_eq!(rt; write_all(&mut sink, b"abcde"), Ok(()));
    assert_eq!(rt; held.as_slice(), b"abcde".as_slice());
}

#[test]
fn a_failed_flush_is_a_fault(rt: HostRuntime) {
    let mut held = [0u8; 0];
    let mut sink = WriterSink::new(Slow::new(held.as_mut_slice(), 0));
    assert_eq!(rt; sink.finish(), Err(Failed));
    assert_eq!(rt; sink.finish(), Ok(()));
}

#[test]
fn finish_flushes_the_writer(rt: HostRuntime) {
    let empty = Vec::new(rt.alloc());
    let mut buffered = BufWriter::new(rt.alloc(), empty).expect(&rt, "memory");
    let mut sink = WriterSink::new(&mut buffered);
    assert_eq!(rt; write_all(&mut sink, b"abcde"), Ok(()));
    assert!(rt; buffered.get_ref().is_empty());

    let mut sink = WriterSink::new(&mut buffered);
    assert_eq!(rt; sink.finish(), Ok(()));
    assert_eq!(rt; buffered.get_ref().as_slice(), b"abcde".as_slice());
}

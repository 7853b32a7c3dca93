ghost use Rattle.std.specs.Prelude.{◌≡◌, ◌≤◌, OnOk, OnErr};
ghost use Rattle.std.specs.Io.KnownBytes.{Appends};
ghost use Rattle.pol_outside.specs.Contents.{AppendsFront};
ghost use Rattle.pol_outside.specs.Faults.{Rose};

use crate::Sink;

/// A write failed, so a sink was given only the first bytes of what was to be written, perhaps none.
#[derive(Clone, Copy, Debug, PartialEq, Eq)]
pub struct WriteFault;

/// Writes all bytes in their order, in as many writes as the sink wants, and none where there is no byte.
/// The first write that fails ends it. Takes no memory of its own.
pub fn write_all<O: Sink>(sink: &mut O, bytes: &[u8]) -> Result<(), WriteFault>
    ensures ok { OnOk result (Appends (O.written sink.old) (O.written sink.new) bytes.now) }
    ensures front { AppendsFront (O.written sink.old) (O.written sink.new) bytes.now }
    ensures later { O.faults sink.old ≤ O.faults sink.new }
    ensures write_fault { OnErr result (Rose (O.faults sink.old) (O.faults sink.new)) }
    ensures calm { OnOk result (O.faults sink.new ≡ O.faults sink.old) }
{
    let mut rest = bytes;
    while !rest.is_empty() {
        let Ok(count) = sink.write(rest) else {
            return Err(WriteFault);
        };
        rest = &rest[count..];
    }
    Ok(())
}

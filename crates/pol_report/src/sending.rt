ghost use Rattle.std.specs.Prelude.{◌≡◌, [], drop};
ghost use Rattle.pol_report.specs.Texts.{head_line, last_line, item_text};
ghost use Rattle.pol_report.specs.Printable.{IsPrintable};
ghost use Rattle.pol_report.specs.Sending.{Sends};

use crate::Item;
use crate::piece::Piece;
use crate::printing::{put_head, put_item, put_last};
use pol_outside::{Sink, WriteFault};

/// Writes the line before the items to the sink. Behind a `WriteFault` a front of it is written. Takes no memory.
pub fn send_head<O: Sink>(sink: &mut O) -> Result<(), WriteFault>
    ensures sends { Sends result (O.written sink.old) (O.written sink.new)
        (O.faults sink.old) (O.faults sink.new) head_line }
{
    let mut piece = Piece::new(sink);
    head_through(&mut piece)
}

/// Writes the lines of the item, which has to be `printable`, to the sink, in pieces of a fixed size. Behind a
/// `WriteFault` a front of them is written. Takes no memory.
pub fn send_item<O: Sink>(sink: &mut O, item: &Item) -> Result<(), WriteFault>
    requires printable { IsPrintable item.now }
    ensures sends { Sends result (O.written sink.old) (O.written sink.new)
        (O.faults sink.old) (O.faults sink.new) (item_text item.now) }
{
    let mut piece = Piece::new(sink);
    item_through(&mut piece, item)
}

/// Writes the line behind the items to the sink. Behind a `WriteFault` a front of it is written. Takes no memory.
pub fn send_last<O: Sink>(sink: &mut O) -> Result<(), WriteFault>
    ensures sends { Sends result (O.written sink.old) (O.written sink.new)
        (O.faults sink.old) (O.faults sink.new) last_line }
{
    let mut piece = Piece::new(sink);
    last_through(&mut piece)
}

fn head_through<O: Sink>(piece: &mut Piece<'_, O>) -> Result<(), WriteFault>
    requires empty { drop piece.old.from piece.old.held.items ≡ [] }
    ensures same_reference { piece.new.sink.ghost_name ≡ piece.old.sink.ghost_name }
    ensures sends { Sends result (O.written piece.old.sink.now) (O.written piece.new.sink.now)
        (O.faults piece.old.sink.now) (O.faults piece.new.sink.now) head_line }
{
    put_head(piece)?;
    piece.flush()
}

fn item_through<O: Sink>(piece: &mut Piece<'_, O>, item: &Item) -> Result<(), WriteFault>
    requires empty { drop piece.old.from piece.old.held.items ≡ [] }
    requires printable { IsPrintable item.now }
    ensures same_reference { piece.new.sink.ghost_name ≡ piece.old.sink.ghost_name }
    ensures sends { Sends result (O.written piece.old.sink.now) (O.written piece.new.sink.now)
        (O.faults piece.old.sink.now) (O.faults piece.new.sink.now) (item_text item.now) }
{
    put_item(piece, item)?;
    piece.flush()
}

fn last_through<O: Sink>(piece: &mut Piece<'_, O>) -> Result<(), WriteFault>
    requires empty { drop piece.old.from piece.old.held.items ≡ [] }
    ensures same_reference { piece.new.sink.ghost_name ≡ piece.old.sink.ghost_name }
    ensures sends { Sends result (O.written piece.old.sink.now) (O.written piece.new.sink.now)
        (O.faults piece.old.sink.now) (O.faults piece.new.sink.now) last_line }
{
    put_last(piece)?;
    piece.flush()
}

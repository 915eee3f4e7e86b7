//! How a text is told: written to a sink and handed on.
ghost use Rattle.std.specs.Prelude.{◌≡◌, ◌≤◌, OnOk, OnErr, decimal};
ghost use Rattle.exec_io.specs.Writing.{Puts};
ghost use Rattle.exec_status.specs.Sinks.{numbered, TellsAll, TellsFront};

use exec_io::{Failed, Sink, put_bytes};
use itoa::Buffer;

/// Writes a text, a number in decimal and a line feed.
fn put_numbered<N: Sink>(text: &[u8], number: u32, sink: &mut N) -> Result<(), Failed>
    ensures { Puts (N.told sink.old) (N.told sink.new) result
        (numbered text.now number) }
{
    put_bytes(text, sink)?;
    put_decimal(number, sink)?;
    put_bytes(b"\n", sink)
}

/// Writes a number in decimal.
fn put_decimal<N: Sink>(number: u32, sink: &mut N) -> Result<(), Failed>
    ensures { Puts (N.told sink.old) (N.told sink.new) result (decimal number) }
{
    let mut buffer = Buffer::new();
    put_bytes(buffer.format(number).as_bytes(), sink)
}

/// Writes a text and hands it on. `Failed` comes only where a call of the sink failed, and then a
/// front of the text was written.
pub fn tell<N: Sink>(text: &[u8], sink: &mut N) -> Result<(), Failed>
    ensures later { (N.told sink.old).faults ≤ (N.told sink.new).faults }
    ensures ok { OnOk result (TellsAll (N.told sink.old)
        (N.told sink.new) text.now) }
    ensures err { OnErr result (TellsFront (N.told sink.old)
        (N.told sink.new) text.now) }
{
    put_bytes(text, sink)?;
    sink.finish()
}

/// Writes a text, a number in decimal and a line feed, and hands them on, as `tell` does.
pub fn tell_numbered<N: Sink>(text: &[u8], number: u32, sink: &mut N) -> Result<(), Failed>
    ensures later { (N.told sink.old).faults ≤ (N.told sink.new).faults }
    ensures ok { OnOk result (TellsAll (N.told sink.old)
        (N.told sink.new) (numbered text.now number)) }
    ensures err { OnErr result (TellsFront (N.told sink.old)
        (N.told sink.new) (numbered text.now number)) }
{
    put_numbered(text, number, sink)?;
    sink.finish()
}

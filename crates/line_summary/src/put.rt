//! How bytes and numbers are put into a sink. No call takes memory.
ghost use Rattle.std.specs.Fmt.{decimal, signed_decimal};
ghost use Rattle.exec_io.specs.Writing.{Puts};

use exec_io::{Failed, Sink, put_bytes};
use itoa::Buffer;

/// Writes a number in decimal.
pub fn put_number<K: Sink>(number: u32, sink: &mut K) -> Result<(), Failed>
    ensures { Puts (K.told sink.old) (K.told sink.new) result (decimal number) }
{
    let mut buffer = Buffer::new();
    put_bytes(buffer.format(number).as_bytes(), sink)
}

/// Writes a signed number in decimal.
pub fn put_signed<K: Sink>(number: i128, sink: &mut K) -> Result<(), Failed>
    ensures { Puts (K.told sink.old) (K.told sink.new) result
        (signed_decimal number) }
{
    let mut buffer = Buffer::new();
    put_bytes(buffer.format(number).as_bytes(), sink)
}

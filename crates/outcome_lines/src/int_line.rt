//! The line of a value of one int, which is written from its end.
ghost use Rattle.std.specs.Prelude.{◌≡◌, ◌+◌, ◌≤◌, [], ◌∷◌, ◌++◌, length, drop};
ghost use Rattle.std.specs.Fmt.{signed_decimal};
ghost use Rattle.exec_io.specs.Writing.{Puts};
ghost use Rattle.exec_value.specs.declared.data.Datum.{Datum};
ghost use Rattle.exec_value.specs.declared.outcome.Completion.{Completion};
ghost use Rattle.exec_value.specs.declared.outcome.Outcome.{Outcome};
ghost use Rattle.outcome_lines.specs.Line.{line_of};
ghost use Rattle.outcome_lines.specs.declared.int_line.TheConstants.{LONGEST_INT};

use exec_io::{Failed, Sink, put_bytes};
use itoa::write_digits;

/// No int has more bytes in decimal, its sign included.
const LONGEST_INT: usize = 20;

/// The line of an int is no longer: it has two numbers, a line feed, and `value` between blanks.
const LONGEST_LINE: usize = 48;

/// Writes an int in decimal, so that it ends at `end`, and says where it starts.
fn write_int(number: i64, bytes: &mut [u8], end: usize) -> usize
    requires room { LONGEST_INT ≤ end }
    requires within { end ≤ length bytes.old }
    ensures few { end ≤ result + LONGEST_INT }
    ensures before { result ≤ end }
    ensures written { drop result bytes.new ≡ signed_decimal number ++ drop end bytes.old }
{
    let start = write_digits(number.unsigned_abs(), bytes, end);
    if number >= 0 {
        return start;
    }
    bytes[start - 1] = b'-';
    start - 1
}

/// Writes bytes, so that they end at `end`, and says where they start.
#[inline(always)]
fn write_bytes(more: &[u8], bytes: &mut [u8], end: usize) -> usize
    requires room { length more.now ≤ end }
    requires within { end ≤ length bytes.old }
    ensures start { result + length more.now ≡ end }
    ensures written { drop result bytes.new ≡ more.now ++ drop end bytes.old }
{
    let start = end - more.len();
    bytes[start..end].copy_from_slice(more);
    start
}

/// Writes the line of the record of this number that ended with this int as its value.
pub(crate) fn put_int_line<K: Sink>(number: u64, value: i64, sink: &mut K) -> Result<(), Failed>
    ensures { Puts (K.told sink.old) (K.told sink.new) result
        (line_of number (Outcome.Done (Completion.Value (Datum.Int value ∷ [])))) }
{
    let mut bytes = [b'\n'; LONGEST_LINE];
    let behind = write_int(value, &mut bytes, LONGEST_LINE - 1);
    let end = write_bytes(b" value ", &mut bytes, behind);
    let start = write_digits(number, &mut bytes, end);
    put_bytes(&bytes[start..], sink)
}

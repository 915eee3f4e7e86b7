//! How the lines of a part are written under other numbers.
ghost use Rattle.std.specs.Prelude.{◌≡◌, ◌<◌, ◌≤◌, ◌+◌, ◌^◌, ℕ, List, Some, IfOk, drop};
ghost use Rattle.std.specs.Option.{option_map};
ghost use Rattle.exec_io.specs.Writing.{Puts};
ghost use Rattle.part_lines.specs.Lines.{IsPartText, numbered_line};
ghost use Rattle.part_lines.specs.Puts.{HasPutCause, PutsLines};
ghost use Rattle.part_lines.specs.Readers.{IsAtLine};
ghost use Rattle.part_lines.specs.declared.limits.TheConstants.{MOST_LINES};
ghost use Rattle.part_lines.specs.declared.putting.PutFault.TheVariants.{Part, Write};
ghost use Rattle.part_lines.specs.declared.reader.PartFault.TheVariants.{Failed as ReadFailed};

use crate::folder::Folder;
use crate::line::Said;
use crate::reader::{PartFault, PartReader};
use exec_io::{Failed, Sink, put_bytes};
use itoa::Buffer;

/// Why lines aren't written on.
#[derive(Clone, Copy, Debug, PartialEq, Eq)]
pub enum PutFault {
    /// The part isn't read on.
    Part(PartFault),
    /// A write failed.
    Write,
}

/// Writes the next line of a part under this number. The part stays at it.
#[inline(always)]
pub fn put_line<F: Folder, K: Sink>(
    reader: &PartReader<F>,
    said: &Said,
    number: u64,
    out: &mut K,
) -> Result<(), Failed>
    requires { (words : List ℕ) × IsAtLine reader.now said.now words }
    ensures { (words : List ℕ) → IsAtLine reader.now said.now words
        → Puts (K.told out.old) (K.told out.new) result (numbered_line number words) }
{
    let mut buffer = Buffer::new();
    put_bytes(buffer.format(number).as_bytes(), out)?;
    put_bytes(reader.line(said), out)
}

/// Writes the lines of a part from its start to its end, the first behind so many lines, and says
/// how many lines are written then.
pub fn put_lines<F: Folder, K: Sink>(
    reader: &mut PartReader<F>,
    before: u64,
    folder: &mut F,
    out: &mut K,
) -> Result<u64, PutFault>
    requires start { reader.old.passed ≡ 0 }
    requires few { before + MOST_LINES < 2 ^ 64 }
    ensures puts { (text : List ℕ) (said : List (List ℕ)) → reader.old.ahead ≡ Some text
        → IsPartText text said → PutsLines before said (K.told out.old) (K.told out.new) result }
    ensures few { IfOk result (λ written. written ≤ before + MOST_LINES) }
    ensures same { (F.told folder.new).texts ≡ (F.told folder.old).texts }
    ensures read_cause { HasPutCause (Part ReadFailed) (F.told folder.old).faults
        (F.told folder.new).faults result }
    ensures write_cause { HasPutCause Write (K.told out.old).faults (K.told out.new).faults result }
{
    let mut written = before;
    'lines: loop {
        match reader.next(folder) {
            Ok(Some(said)) => {
                written += 1;
                if let Err(Failed) = put_line(reader, &said, written, out) {
                    return Err(PutFault::Write);
                }
                reader.pass(&said);
            }
            Ok(None) => return Ok(written),
            Err(fault) => return Err(PutFault::Part(fault)),
        }
    }
}

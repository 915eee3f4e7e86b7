//! How the lines of a part are counted.
ghost use Rattle.std.specs.Prelude.{◌≡◌, ◌≤◌, ℕ, List, Some, IfOk, IfErr};
ghost use Rattle.part_lines.specs.Faults.{HasPartCause, StopsPart};
ghost use Rattle.part_lines.specs.Tallies.{HoldsTallied};
ghost use Rattle.part_lines.specs.declared.limits.TheConstants.{MOST_LINES};

use crate::folder::Folder;
use crate::reader::{PartFault, PartReader};
use crate::tally::Tally;

/// Counts the lines of a part from its start to its end. A fault says why it isn't one.
pub fn count_lines<F: Folder>(
    reader: &mut PartReader<F>,
    folder: &mut F,
) -> Result<Tally, PartFault>
    requires { reader.old.passed ≡ 0 }
    ensures few { IfOk result (λ tally. tally.lines ≤ MOST_LINES) }
    ensures counted { (text : List ℕ) → reader.old.ahead ≡ Some text
        → IfOk result (HoldsTallied text) }
    ensures fault { (text : List ℕ) → reader.old.ahead ≡ Some text
        → IfErr result (StopsPart text) }
    ensures same { (F.told folder.new).texts ≡ (F.told folder.old).texts }
    ensures cause { HasPartCause (F.told folder.old).faults (F.told folder.new).faults result }
{
    let mut tally = Tally::new();
    'lines: loop {
        match reader.next(folder) {
            Ok(Some(said)) => {
                tally.count(said.sort);
                reader.pass(&said);
            }
            Ok(None) => return Ok(tally),
            Err(fault) => return Err(fault),
        }
    }
}

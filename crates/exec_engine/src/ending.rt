//! The status of a run by how it ended.
ghost use Rattle.std.specs.Prelude.{◌≡◌};
ghost use Rattle.exec_engine.specs.Statuses.{status_of_lines, status_of};

use exec_status::Status;
use line_summary::Summary;
use record_lines::End;
use record_loop::Ending;

/// The status of lines that were all written.
fn status_of_lines(summary: &Summary) -> Status
    ensures { result ≡ status_of_lines summary.now }
{
    if summary.no_memory() > 0 {
        Status::NoMemory
    } else if summary.values() == summary.lines() {
        Status::AllValues
    } else {
        Status::NotAllValues
    }
}

/// The status of a run that ended so. A lost write comes first.
pub fn status_of(ending: &Ending) -> Status
    ensures { result ≡ status_of ending.now }
{
    if ending.is_lost() {
        return Status::WriteFault;
    }
    match ending.end() {
        End::Fault => Status::ReadFault,
        End::Limit => Status::Limit,
        End::Ended => status_of_lines(ending.summary()),
    }
}

//! What is told where there is no plan.
ghost use Rattle.std.specs.Prelude.{◌≡◌, ◌≤◌};
ghost use Rattle.exec_status.specs.Files.{GivesUp};
ghost use Rattle.exec_engine.specs.Refusals.{refusal_of};

use exec_io::Sink;
use exec_status::{FileFault, Status, conclude, refuse};
use plan_reader::PlanFault;

/// What is told of a plan that is refused.
pub fn refusal_of(fault: PlanFault) -> &'static [u8]
    ensures { result.now ≡ refusal_of fault }
{
    match fault {
        PlanFault::TooLong => b"plan refused: P1 too long\n",
        PlanFault::NotJson => b"plan refused: P2 not JSON\n",
        PlanFault::Form => b"plan refused: P3 form\n",
        PlanFault::UnknownName => b"plan refused: P4 unknown name\n",
        PlanFault::Limit => b"plan refused: P5 limit\n",
        PlanFault::Kinds => b"plan refused: P6 kinds\n",
        PlanFault::Excluded => b"plan refused: P7 settings exclude each other\n",
        PlanFault::NoMemory => b"out of memory\n",
    }
}

/// Tells why there is no plan, and gives the status that stands then. A refusal stands also where
/// notes fail.
pub fn give_up<N: Sink>(fault: FileFault<PlanFault>, notes: &mut N) -> Status
    ensures later { (N.told notes.old).faults ≤ (N.told notes.new).faults }
    ensures gives_up { GivesUp refusal_of fault (N.told notes.old) (N.told notes.new) result }
{
    match fault {
        FileFault::Refused(cause) => {
            refuse(refusal_of(cause), notes);
            Status::PlanRefused
        }
        FileFault::ReadFault => conclude(Status::ReadFault, notes),
        FileFault::NoMemory => conclude(Status::NoMemory, notes),
    }
}

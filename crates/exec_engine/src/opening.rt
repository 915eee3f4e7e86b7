//! The plan of a run, from a shelf.
ghost use Rattle.std.specs.Prelude.{IfOk, IfErr};
ghost use Rattle.exec_status.specs.Files.{IsFaultOf, Misses, ReadsShelf};
ghost use Rattle.exec_engine.specs.Opening.{HasPlan, HasPlanRefusal, IsOpened, IsRefused};

use exec_io::{Shelf, ShelfFault};
use exec_status::FileFault;
use plan_reader::{MOST_PLAN_BYTES, PlanFault, read_plan};
use plan_shape::Plan;
use std::alloc::Global;

/// The plan of a file with these bytes.
fn plan_in(alloc: Global, bytes: &[u8]) -> Result<Plan, FileFault<PlanFault>>
    ensures ok { IfOk result (IsOpened bytes.now) }
    ensures fault { IfErr result (IsFaultOf (IsRefused bytes.now)) }
{
    match read_plan(alloc, bytes) {
        Ok(plan) => {
            // Asked for what it says of every plan.
            let _ = plan.size();
            Ok(plan)
        }
        Err(PlanFault::NoMemory) => Err(FileFault::NoMemory),
        Err(fault) => Err(FileFault::Refused(fault)),
    }
}

/// The plan of the file of this name.
pub fn open_plan<F: Shelf>(
    alloc: Global,
    name: &str,
    shelf: &mut F,
) -> Result<Plan, FileFault<PlanFault>>
    ensures reads { ReadsShelf name.now (F.told shelf.old) (F.told shelf.new) result }
    ensures plan { IfOk result (HasPlan (F.told shelf.old).texts name.now) }
    ensures fault { IfErr result (Misses (HasPlanRefusal (F.told shelf.old).texts name.now)) }
{
    match shelf.read(alloc, name, MOST_PLAN_BYTES) {
        Ok(bytes) => plan_in(alloc, &bytes),
        Err(ShelfFault::Failed) => Err(FileFault::ReadFault),
        Err(ShelfFault::NoMemory) => Err(FileFault::NoMemory),
    }
}

//! Plain evaluation of one record.
ghost use Rattle.std.specs.Prelude.{◌≡◌, false, IfSome, IfOk, IsSome};
ghost use Rattle.exec_value.specs.Kinds.{HasKind};
ghost use Rattle.plan_kinds.specs.Reached.{KindsMatch};
ghost use Rattle.plan_settle.specs.Root.{settled_root};
ghost use Rattle.plan_kinds.specs.Small.{IsSmall};
ghost use Rattle.plain_runs.specs.PlainWork.{Completes};

use crate::started::Started;
use exec_value::Completion;
use plan_settle::{settle, settle_asked};
use plan_shape::Plan;
use std::alloc::{AllocError, Global};

/// How an operation of the plan completes, by plain evaluation; with want of memory where there was
/// none, unless the plan is small. A small plan wants none, so `None` says that its operation isn't
/// complete yet, and may be evaluated again.
pub fn evaluate(alloc: Global, plan: &Plan, small: bool, started: &Started) -> Option<Completion>
    requires kinds { KindsMatch plan.now.nodes plan.now.settings.input }
    requires datum_kind { HasKind started.now.datum plan.now.settings.input }
    requires wants { small ≡ false → ¬ IsSmall plan.now }
    ensures completes { IfSome result (Completes plan.now started.now) }
    ensures ends { small ≡ false → IsSome result }
{
    match settled(alloc, plan, started) {
        Ok(done) => Some(done),
        Err(AllocError) if small => None,
        Err(AllocError) => Some(Completion::NoMemory),
    }
}

/// What the plan settles to for the record, where a stop was asked before or not.
fn settled(alloc: Global, plan: &Plan, started: &Started) -> Result<Completion, AllocError>
    requires kinds { KindsMatch plan.now.nodes plan.now.settings.input }
    requires datum_kind { HasKind started.now.datum plan.now.settings.input }
    ensures { IfOk result (λ done. done ≡ settled_root plan.now started.now.datum
        started.now.number started.now.asked) }
{
    if started.asked {
        settle_asked(alloc, plan, started.number, &started.datum)
    } else {
        settle(alloc, plan, started.number, &started.datum)
    }
}

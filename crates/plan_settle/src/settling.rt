//! The plain evaluation of a whole plan.
ghost use Rattle.std.specs.Prelude.{◌≡◌, [], ◌∷◌, true, false, IfOk, IsOk, OnErr};
ghost use Rattle.exec_value.specs.Kinds.{HasKind};
ghost use Rattle.exec_value.specs.Place.{IsInPlace};
ghost use Rattle.plan_kinds.specs.Reached.{KindsMatch};
ghost use Rattle.plan_settle.specs.Root.{settled_root};
ghost use Rattle.plan_kinds.specs.Small.{HasShortNames, IsSmall};
ghost use Rattle.plan_settle.specs.Runs.{SettlesLong};

use crate::evaluation::Evaluation;
use exec_value::{Completion, Data, Datum};
use plan_shape::Plan;
use std::alloc::{AllocError, Global};

/// What the plan completes with for the record of this number, which is this datum, where no stop
/// is ever requested: by plain evaluation on one thread, the children of a `when_all` in order.
///
/// It is one of the completions that the plan allows, and the only one where the record is calm.
/// The only error is want of memory. A small plan answers it only where a node completes by an
/// error whose name doesn't stand in place, which is the name that a node of the plan says.
pub fn settle(
    alloc: Global,
    plan: &Plan,
    number: u32,
    datum: &Datum,
) -> Result<Completion, AllocError>
    requires kinds { KindsMatch plan.now.nodes plan.now.settings.input }
    requires datum_kind { HasKind datum.now plan.now.settings.input }
    ensures exact { IfOk result (λ done. done ≡ settled_root plan.now datum.now number false) }
    ensures small { IsSmall plan.now → OnErr result (SettlesLong plan.now number) }
    ensures in_place { IsSmall plan.now → HasShortNames plan.now → IsOk result }
{
    evaluate(alloc, plan, number, datum, false)
}

/// The same where a stop was requested before the start: `schedule`, `delay`, hops and `when_all`
/// complete stopped, and the environment shows the request, save below an `unstoppable`.
///
/// It is one of the completions that the plan allows under a request that stands.
pub fn settle_asked(
    alloc: Global,
    plan: &Plan,
    number: u32,
    datum: &Datum,
) -> Result<Completion, AllocError>
    requires kinds { KindsMatch plan.now.nodes plan.now.settings.input }
    requires datum_kind { HasKind datum.now plan.now.settings.input }
    ensures exact { IfOk result (λ done. done ≡ settled_root plan.now datum.now number true) }
    ensures small { IsSmall plan.now → OnErr result (SettlesLong plan.now number) }
    ensures in_place { IsSmall plan.now → HasShortNames plan.now → IsOk result }
{
    evaluate(alloc, plan, number, datum, true)
}

/// The same, where a stop was asked or not.
fn evaluate(
    alloc: Global,
    plan: &Plan,
    number: u32,
    datum: &Datum,
    asked: bool,
) -> Result<Completion, AllocError>
    requires kinds { KindsMatch plan.now.nodes plan.now.settings.input }
    requires datum_kind { HasKind datum.now plan.now.settings.input }
    ensures exact { IfOk result (λ done. done ≡ settled_root plan.now datum.now number asked) }
    ensures small { IsSmall plan.now → OnErr result (SettlesLong plan.now number) }
    ensures in_place { IsSmall plan.now → HasShortNames plan.now → IsOk result }
{
    let args = arguments(alloc, datum)?;
    let root = plan.size() - 1;
    let run = Evaluation {
        alloc,
        plan,
        number,
        asked,
    };
    let mut done = Completion::Stopped;
    match run.settle(root, &args, &mut done) {
        Ok(()) => {
            drop(args);
            Ok(done)
        }
        Err(fault) => {
            drop(args);
            drop(done);
            Err(fault)
        }
    }
}

/// The arguments of the root: the record's datum alone.
fn arguments(alloc: Global, datum: &Datum) -> Result<Data, AllocError>
    ensures ok { IfOk result (λ args. args ≡ datum.now ∷ []) }
    ensures in_place { IsInPlace datum.now → IsOk result }
{
    Ok(Data::one(alloc, datum.clone()?))
}

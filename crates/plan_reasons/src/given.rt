//! Who takes which kinds, and who gives them.
ghost use Rattle.std.specs.Prelude.{◌≡◌, [], ◌∷◌, Some, IfOk, string_bytes};
ghost use Rattle.exec_value.specs.declared.kinds.Kind.TheVariants as kind;
ghost use Rattle.exec_job.specs.Takes.{is_int};
ghost use Rattle.plan_kinds.specs.Shapes.{never_or};
ghost use Rattle.plan_reasons.specs.Kinds.{body_gives, give_other, giver_of, job_takes, pick_gives, takes_gives, upon_mismatch};

use crate::texts::{job_name, shape_text, wanted_by};
use exec_job::Job;
use exec_value::Kind;
use plan_kinds::KindList;
use sig_check::{gives_for, takes_value};
use std::alloc::{AllocError, Global};

/// Who takes something, and another gives something else.
pub(crate) fn takes_gives(
    alloc: Global,
    taker: &str,
    wanted: &str,
    giver: &str,
    shape: &Option<KindList>,
) -> Result<String, AllocError>
    ensures { IfOk result (λ text. string_bytes text
        ≡ takes_gives taker.now wanted.now giver.now shape.now) }
{
    let kinds = shape_text(alloc, shape)?;
    format!(in alloc; "{taker} takes {wanted}, {giver} gives {kinds}")
}

/// A job doesn't take what another gives.
pub(crate) fn job_takes(
    alloc: Global,
    job: &Job,
    giver: &str,
    shape: &Option<KindList>,
) -> Result<String, AllocError>
    ensures { IfOk result
        (λ text. string_bytes text ≡ job_takes job.now giver.now shape.now) }
{
    takes_gives(alloc, job_name(job), wanted_by(job), giver, shape)
}

/// Two give values that aren't of the same kinds.
pub(crate) fn give_other(
    alloc: Global,
    giver: &str,
    shape: &Option<KindList>,
    other: &str,
    wanted: &Option<KindList>,
) -> Result<String, AllocError>
    ensures { IfOk result (λ text. string_bytes text
        ≡ give_other giver.now shape.now other.now wanted.now) }
{
    let kinds = shape_text(alloc, shape)?;
    let others = shape_text(alloc, wanted)?;
    format!(in alloc; "{giver} gives {kinds}, {other} gives {others}")
}

/// A body gives other kinds, by its place.
pub(crate) fn body_gives(
    alloc: Global,
    index: u64,
    shape: &Option<KindList>,
    other: &str,
    wanted: &Option<KindList>,
) -> Result<String, AllocError>
    ensures { IfOk result (λ text. string_bytes text
        ≡ body_gives index shape.now other.now wanted.now) }
{
    let kinds = shape_text(alloc, shape)?;
    let others = shape_text(alloc, wanted)?;
    format!(in alloc; "bodies[{index}] gives {kinds}, {other} gives {others}")
}

/// A pick gives something else than one int.
pub(crate) fn pick_gives(
    alloc: Global,
    pick: &Job,
    shape: &Option<KindList>,
) -> Result<String, AllocError>
    ensures { IfOk result (λ text. string_bytes text ≡ pick_gives pick.now shape.now) }
{
    let name = job_name(pick);
    let kinds = shape_text(alloc, shape)?;
    format!(in alloc; "a pick gives int, {name} gives {kinds}")
}

/// A job on what an error or a stop gives, beside its child.
pub(crate) fn upon_mismatch(
    alloc: Global,
    job: &Job,
    giver: &str,
    shape: &Option<KindList>,
    child: &Option<KindList>,
) -> Result<String, AllocError>
    ensures { IfOk result (λ text. string_bytes text
        ≡ upon_mismatch job.now giver.now shape.now child.now) }
{
    if takes_value(job, shape) {
        give_other(
            alloc,
            job_name(job),
            &gives_for(job, shape),
            "its child",
            child,
        )
    } else {
        job_takes(alloc, job, giver, shape)
    }
}

/// Who gives the kinds that the bodies of a let are to give.
pub(crate) fn giver_of(front: &Option<KindList>) -> &'static str
    ensures { result.now ≡ giver_of front.now }
{
    if front.is_some() {
        "its child"
    } else {
        "a body before it"
    }
}

/// One int, or never a value.
pub(crate) fn is_int(shape: &Option<KindList>) -> bool
    ensures { result ≡ never_or is_int shape.now }
{
    match shape {
        Some(kinds) => matches!(kinds.as_slice(), [Kind::Int]),
        None => true,
    }
}

/// One text, as an error gives.
pub(crate) fn text_alone() -> Option<KindList>
    ensures { result ≡ Some (kind.Text ∷ []) }
{
    let mut kinds = KindList::empty();
    kinds.push(Kind::Text);
    Some(kinds)
}

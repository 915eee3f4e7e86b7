//! What jobs give for operands of kinds that they take.
ghost use Rattle.std.specs.Prelude.{◌≡◌, ◌≤◌, false, length, map, slice_get};
ghost use Rattle.std.specs.Option.{option_to_list, option_and_then};
ghost use Rattle.exec_value.specs.Kinds.{kind_of};
ghost use Rattle.exec_value.specs.declared.limits.TheConstants.{DATA};
ghost use Rattle.exec_job.specs.Takes.{is_int, takes};
ghost use Rattle.plan_kinds.specs.Shapes.{never_or};
ghost use Rattle.plan_kinds.specs.Gives.{gives, may_fail, picks};

use crate::shapes::{list_of, one};
use exec_job::Job;
use exec_value::{Datum, Kind};
use plan_kinds::{KindList, Sig};

/// The shape of the value that a job gives for operands of these kinds.
pub(crate) fn gives(job: &Job, kinds: &[Kind]) -> Option<KindList>
    requires { length kinds.now ≤ DATA }
    ensures { result ≡ gives job.now kinds.now }
{
    match job {
        Job::Add(_) | Job::Sub(_) | Job::Mul(_) | Job::Div(_) => Some(one(Kind::Int)),
        Job::Neg | Job::Within { .. } | Job::Index => Some(one(Kind::Int)),
        Job::Sum | Job::Length | Job::Parse | Job::IntOr(_) => Some(one(Kind::Int)),
        Job::Append(_) | Job::Join | Job::Show | Job::TextOr(_) => Some(one(Kind::Text)),
        Job::Iota => Some(one(Kind::Row)),
        Job::Fail(_) => None,
        Job::Give(values) => Some(kinds_of(values.as_slice())),
        Job::At(place) => Some(at(kinds, *place)),
        Job::Pass => Some(list_of(kinds)),
    }
}

/// Whether a job may end by an error.
pub(crate) fn may_fail(job: &Job) -> bool
    ensures { result ≡ may_fail job.now }
{
    match job {
        Job::Length | Job::Show | Job::Give(_) | Job::At(_) => false,
        Job::IntOr(_) | Job::TextOr(_) | Job::Pass => false,
        _ => true,
    }
}

/// How a job ends that is given operands of these kinds.
pub(crate) fn ending(job: &Job, kinds: &[Kind]) -> Sig
    requires { length kinds.now ≤ DATA }
    ensures value { result.value ≡ gives job.now kinds.now }
    ensures may_error { result.may_error ≡ may_fail job.now }
    ensures may_stop { result.may_stop ≡ false }
{
    Sig {
        value: gives(job, kinds),
        may_error: may_fail(job),
        may_stop: false,
    }
}

/// The shape of what a job gives for a value of this shape.
pub fn gives_for(job: &Job, shape: &Option<KindList>) -> Option<KindList>
    ensures { result ≡ option_and_then (gives job.now) shape.now }
{
    match shape {
        Some(kinds) => gives(job, kinds.as_slice()),
        None => None,
    }
}

/// Whether a job takes a value of this shape.
pub fn takes_value(job: &Job, shape: &Option<KindList>) -> bool
    ensures { result ≡ never_or (takes job.now) shape.now }
{
    match shape {
        Some(kinds) => job.takes(kinds.as_slice()),
        None => true,
    }
}

/// Whether a job takes these kinds and gives one int, or never a value.
pub(crate) fn picks(job: &Job, kinds: &[Kind]) -> bool
    requires { length kinds.now ≤ DATA }
    ensures { result ≡ picks job.now kinds.now }
{
    job.takes(kinds) && is_int(&gives(job, kinds))
}

/// Whether a job picks by a value of this shape.
pub(crate) fn picks_by(job: &Job, shape: &Option<KindList>) -> bool
    ensures { result ≡ never_or (picks job.now) shape.now }
{
    match shape {
        Some(kinds) => picks(job, kinds.as_slice()),
        None => true,
    }
}

/// One int, or never a value.
fn is_int(shape: &Option<KindList>) -> bool
    ensures { result ≡ never_or is_int shape.now }
{
    match shape {
        Some(kinds) => matches!(kinds.as_slice(), [Kind::Int]),
        None => true,
    }
}

/// The kinds of these data.
pub(crate) fn kinds_of(values: &[Datum]) -> KindList
    requires { length values.now ≤ DATA }
    ensures { result ≡ map kind_of values.now }
{
    let mut list = KindList::empty();
    for datum in values {
        list.push(kind_of(datum));
    }
    list
}

/// The kind of a datum. `Nothing` counts as a missing number.
fn kind_of(datum: &Datum) -> Kind
    ensures { result ≡ kind_of datum.now }
{
    match datum {
        Datum::Int(_) => Kind::Int,
        Datum::Text(_) => Kind::Text,
        Datum::Row(_) => Kind::Row,
        Datum::SomeInt(_) | Datum::Nothing => Kind::MaybeInt,
        Datum::SomeText(_) => Kind::MaybeText,
    }
}

/// The kind at a place, alone.
fn at(kinds: &[Kind], place: u32) -> KindList
    ensures { result ≡ option_to_list (slice_get kinds.now place) }
{
    match kinds.get(place as usize) {
        Some(kind) => one(*kind),
        None => KindList::empty(),
    }
}

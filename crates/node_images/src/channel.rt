//! The data that a completion has on one of its channels ([exec.recv]), taken out of it. A
//! completion that has none there stays as it is.
ghost use Rattle.std.specs.Prelude.{◌≡◌, IfNone};
ghost use Rattle.plan_rules.specs.Images.{error_data, stopped_data, value_data};

use exec_value::{Completion, Data, Datum};
use std::alloc::Global;
use std::mem;

/// The one in place of the other, which is dropped by a call.
pub(crate) fn instead<A: Drop, B>(other: A, one: B) -> B
    ensures { result ≡ one }
{
    drop(other);
    one
}

/// The data of a value.
pub fn take_value(alloc: Global, done: &mut Completion) -> Option<Data>
    ensures taken { result ≡ value_data done.old }
    ensures stays { IfNone result (done.new ≡ done.old) }
{
    match done {
        Completion::Value(values) => Some(mem::replace(values, Data::empty(alloc))),
        _ => None,
    }
}

/// The name of an error, as data.
pub fn take_error(alloc: Global, done: &mut Completion) -> Option<Data>
    ensures taken { result ≡ error_data done.old }
    ensures stays { IfNone result (done.new ≡ done.old) }
{
    match done {
        Completion::Error(name) => Some(Data::one(alloc, Datum::Text(name.take_text(alloc)))),
        _ => None,
    }
}

/// No data for stopped.
pub fn take_stopped(alloc: Global, done: &mut Completion) -> Option<Data>
    ensures taken { result ≡ stopped_data done.old }
    ensures stays { IfNone result (done.new ≡ done.old) }
{
    match done {
        Completion::Stopped => Some(Data::empty(alloc)),
        _ => None,
    }
}

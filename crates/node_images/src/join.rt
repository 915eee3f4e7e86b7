//! How values are joined.
ghost use Rattle.std.specs.Prelude.{◌≡◌, ◌+◌, ◌<◌, ◌≤◌, [], ◌∷◌, ◌++◌, length, Ok, Err, IsOk, IfOk, IfErr, OnOk, IfSome};
ghost use Rattle.exec_value.specs.declared.limits.TheConstants.{DATA, INLINE_DATA};
ghost use Rattle.plan_rules.specs.Images.{value_data};
ghost use Rattle.plan_rules.specs.Settle.{ahead_of, all_of, and_then};
ghost use Rattle.node_images.specs.Joined.{Tells};

use crate::channel::instead;
use exec_value::{Completion, DATA, Data, Datum};
use std::alloc::{AllocError, Global};
use std::mem;

/// Why values aren't joined.
#[derive(Drop)]
pub enum NoRoom {
    /// There is no memory for them.
    Memory,
    /// One list doesn't take so many. A child that comes later never has a value then.
    Limit,
}

/// What the children of a `when_all` so far complete with together, or why there is no room for it.
pub type Together = Result<Completion, NoRoom>;

/// No children complete with no data.
pub fn no_children(alloc: Global) -> Together
    ensures { Tells result (all_of []) }
{
    Ok(Completion::Value(Data::empty(alloc)))
}

/// One child more, whose completion is taken from its place.
pub fn join_child(together: &mut Together, done: &mut Completion)
    ensures { (c : Completion) → Tells together.old c
        → Tells together.new (and_then c done.old) }
{
    if let Ok(Completion::Value(front)) = together {
        if let Completion::Value(values) = done {
            match join_to(front, values) {
                Ok(()) => {}
                Err(no_room) => *together = Err(no_room),
            }
            return;
        }
    }
    join_other(together, done);
}

/// The values of one child more behind those of the children before it, where there is room for
/// them. The first values move.
fn join_to(front: &mut Data, values: &mut Data) -> Result<(), NoRoom>
    ensures ok { OnOk result (front.new ≡ front.old ++ values.old) }
    ensures err { IfErr result
        (λ why. Tells (Err why) (Completion.Value (front.old ++ values.old))) }
{
    if front.as_slice().is_empty() {
        mem::swap(front, values);
        return Ok(());
    }
    if front.as_slice().len() + values.as_slice().len() > DATA {
        return Err(NoRoom::Limit);
    }
    match append_all(front, values) {
        Ok(()) => Ok(()),
        Err(AllocError) => Err(NoRoom::Memory),
    }
}

/// One child more, where it or one before it has no value.
#[inline(never)]
fn join_other(together: &mut Together, done: &mut Completion)
    ensures { (c : Completion) → Tells together.old c
        → Tells together.new (and_then c done.old) }
{
    let next = mem::replace(done, Completion::Stopped);
    let front = mem::replace(together, Ok(Completion::Stopped));
    // what stands in between has nothing to drop
    mem::forget(mem::replace(together, and_then(front, next)));
}

/// Puts what all children complete with in its place, where there was room for it.
pub fn put_together(together: Together, done: &mut Completion) -> Result<(), NoRoom>
    ensures ok { OnOk result (together ≡ Ok done.new) }
    ensures err { IfErr result (λ why. together ≡ Err why) }
{
    done.put(together?);
    Ok(())
}

/// Puts a value behind the value of an `ahead`'s first child; where that has none, it stays.
pub fn put_behind(values: Data, done: &mut Completion) -> Result<(), AllocError>
    requires { IfSome (value_data done.old) (λ front. length front + length values ≤ DATA) }
    ensures { OnOk result (done.new ≡ ahead_of done.old (Completion.Value values)) }
{
    match done {
        Completion::Value(front) => put_after(front, values),
        _ => Ok(instead(values, ())),
    }
}

/// The same where the first child has a value.
fn put_after(front: &mut Data, values: Data) -> Result<(), AllocError>
    requires { length front.old + length values ≤ DATA }
    ensures { OnOk result (front.new ≡ front.old ++ values) }
{
    match append_all(front, &values) {
        Ok(()) => Ok(instead(values, ())),
        Err(fault) => Err(instead(values, fault)),
    }
}

/// A child's completion behind those of the children before it: values are joined, else the first
/// error stays, else stopped ([exec.when.all]).
fn and_then(front: Together, next: Completion) -> Together
    ensures { (c : Completion) → Tells front c → Tells result (and_then c next) }
{
    match front {
        Ok(Completion::Value(front)) => match next {
            Completion::Value(values) => join(front, values),
            failed => Ok(instead(front, failed)),
        },
        Ok(Completion::Error(name)) => Ok(instead(next, Completion::Error(name))),
        Ok(stopped) => match next {
            Completion::Error(name) => Ok(instead(stopped, Completion::Error(name))),
            other => Ok(instead(stopped, instead(other, Completion::Stopped))),
        },
        Err(no_room) => match next {
            Completion::Value(values) => instead(values, Err(no_room)),
            failed => Ok(failed),
        },
    }
}

/// The values of two children, where there is room for them.
fn join(front: Data, values: Data) -> Together
    ensures { Tells result (Completion.Value (front ++ values)) }
{
    if front.as_slice().len() + values.as_slice().len() > DATA {
        return Err(instead(front, instead(values, NoRoom::Limit)));
    }
    match append(front, values) {
        Ok(joined) => Ok(Completion::Value(joined)),
        Err(_) => Err(NoRoom::Memory),
    }
}

/// Some data and then others.
fn append(front: Data, values: Data) -> Result<Data, AllocError>
    requires { length front + length values ≤ DATA }
    ensures ok { IfOk result (λ joined. joined ≡ front ++ values) }
    ensures few { length front + length values ≤ INLINE_DATA → IsOk result }
{
    if front.as_slice().is_empty() {
        return Ok(instead(front, values));
    }
    let mut joined = front;
    match append_all(&mut joined, &values) {
        Ok(()) => Ok(instead(values, joined)),
        Err(fault) => Err(instead(values, instead(joined, fault))),
    }
}

/// Appends copies of data.
fn append_all(joined: &mut Data, values: &Data) -> Result<(), AllocError>
    requires { length joined.old + length values.now ≤ DATA }
    ensures ok { OnOk result (joined.new ≡ joined.old ++ values.now) }
    ensures none { values.now ≡ [] → IsOk result }
{
    for datum in values.as_slice() {
        push_copy(joined, datum)?;
    }
    Ok(())
}

/// Appends a copy of a datum.
fn push_copy(joined: &mut Data, datum: &Datum) -> Result<(), AllocError>
    requires { length joined.old < DATA }
    ensures { OnOk result (joined.new ≡ joined.old ++ datum.now ∷ []) }
{
    joined.push(datum.clone()?).map_err(|_| AllocError)
}

//! The seven states of a scope, and how each is closed.
ghost use Rattle.table_use.specs.Members.{MayAssociate};

use super::opening::shared;
use count_scope::ScopeState;
use std::alloc::Global;
use std::test::Fail;
use table_use::{Table, Worker, enter, join_now, leave, look, shut};

// How a state is reached from an unused scope, which it is, and which follows when it is closed.
#[derive(Clone, Copy)]
struct Way {
    held: bool,
    closes: bool,
    joins: bool,
    reached: ScopeState,
    closed: ScopeState,
}

fn way_to(held: bool, closes: bool, joins: bool, reached: ScopeState, closed: ScopeState) -> Way {
    Way {
        held,
        closes,
        joins,
        reached,
        closed,
    }
}

// The way to each state.
fn way_of(reached: ScopeState) -> Way {
    let (unused, closed) = (ScopeState::UnusedAndClosed, ScopeState::Closed);
    let joining = ScopeState::ClosedAndJoining;
    match reached {
        ScopeState::Unused => way_to(false, false, false, reached, unused),
        ScopeState::UnusedAndClosed => way_to(false, true, false, reached, unused),
        ScopeState::Open => way_to(true, false, false, reached, closed),
        ScopeState::Closed => way_to(true, true, false, reached, closed),
        ScopeState::OpenAndJoining => way_to(true, false, true, reached, joining),
        ScopeState::ClosedAndJoining => way_to(true, true, true, reached, joining),
        ScopeState::Joined => way_to(false, false, true, reached, ScopeState::Joined),
    }
}

fn shuts_if(table: &Table, hand: &mut Worker, closes: bool)
    requires { MayAssociate table.now hand.old }
    ensures { MayAssociate table.now hand.new }
{
    if closes {
        shut(table, hand);
    }
}

fn joins_if(table: &Table, hand: &mut Worker, joins: bool)
    requires { MayAssociate table.now hand.old }
    ensures { MayAssociate table.now hand.new }
{
    if joins {
        let _ = join_now(table, hand);
    }
}

// Whether the scope comes to the way's state.
fn reaches(table: &Table, hand: &mut Worker, way: Way) -> bool
    requires { MayAssociate table.now hand.old }
    ensures { MayAssociate table.now hand.new }
{
    shuts_if(table, hand, way.closes);
    joins_if(table, hand, way.joins);
    look(table, hand) == way.reached
}

// And to the state after it, when it is closed.
fn closes_so(table: &Table, hand: &mut Worker, way: Way) -> bool
    requires { MayAssociate table.now hand.old }
    ensures { MayAssociate table.now hand.new }
{
    let reached = reaches(table, hand, way);
    shut(table, hand);
    reached && look(table, hand) == way.closed
}

// The same, while another hand has an association.
fn closes_beside(table: &Table, hand: &mut Worker, holder: &mut Worker, way: Way) -> bool
    requires hand { MayAssociate table.now hand.old }
    requires holder { MayAssociate table.now holder.old }
{
    match enter(table, holder) {
        Ok(association) => {
            let closed = closes_so(table, hand, way);
            leave(table, holder, association);
            closed
        }
        Err(_) => false,
    }
}

// The same by these hands, where the way says whether one has an association.
fn closes_by(table: &Table, mut hand: Worker, mut holder: Worker, way: Way) -> bool
    requires hand { MayAssociate table.now hand }
    requires holder { MayAssociate table.now holder }
{
    let told = if way.held {
        closes_beside(table, &mut hand, &mut holder, way)
    } else {
        closes_so(table, &mut hand, way)
    };
    drop(hand);
    drop(holder);
    told
}

// The same in this state of a scope of its own.
fn closes_in(alloc: Global, state: ScopeState) -> Result<bool, Fail> {
    let (table, hand, holder) = shared(alloc, 1)?;
    let told = closes_by(&table, hand, holder, way_of(state));
    drop(table);
    Ok(told)
}

#[test]
fn a_scope_that_no_hand_used_is_closed(rt: HostRuntime) -> Result<(), Fail> {
    assert!(rt; closes_in(rt.alloc(), ScopeState::Unused)?);
    assert!(rt; closes_in(rt.alloc(), ScopeState::UnusedAndClosed)?);
    assert!(rt; closes_in(rt.alloc(), ScopeState::Joined)?);
    Ok(())
}

#[test]
fn a_scope_with_an_association_is_closed(rt: HostRuntime) -> Result<(), Fail> {
    assert!(rt; closes_in(rt.alloc(), ScopeState::Open)?);
    assert!(rt; closes_in(rt.alloc(), ScopeState::Closed)?);
    assert!(rt; closes_in(rt.alloc(), ScopeState::OpenAndJoining)?);
    assert!(rt; closes_in(rt.alloc(), ScopeState::ClosedAndJoining)?);
    Ok(())
}

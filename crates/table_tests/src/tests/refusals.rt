//! Why an association is refused, from the first two to the end of the join.
ghost use Rattle.table_use.specs.Members.{MayAssociate};

use super::opening::full_for_two;
use count_scope::{JoinStart, Refused, ScopeState};
use std::test::Fail;
use table_use::{Table, Worker, enter, has_joined, join_now, leave, look, pass, shut};

// Whether an association is refused for this cause.
fn refuses(table: &Table, hand: &mut Worker, cause: Refused) -> bool
    requires { MayAssociate table.now hand.old }
    ensures { MayAssociate table.now hand.new }
{
    pass(table, hand) == Some(cause)
}

// Whether the join waits, and associations are refused then as after a close.
fn joins_slowly(table: &Table, hand: &mut Worker) -> bool
    requires { MayAssociate table.now hand.old }
    ensures { MayAssociate table.now hand.new }
{
    let waits = join_now(table, hand) == JoinStart::Waiting;
    refuses(table, hand, Refused::Closed) && waits
}

// Whether associations are refused after a close.
fn shuts(table: &Table, hand: &mut Worker) -> bool
    requires { MayAssociate table.now hand.old }
    ensures { MayAssociate table.now hand.new }
{
    shut(table, hand);
    refuses(table, hand, Refused::Closed)
}

// Whether associations are refused while the scope is full, after it was closed, and as it joins.
fn turns_away(table: &Table, hand: &mut Worker) -> bool
    requires { MayAssociate table.now hand.old }
    ensures { MayAssociate table.now hand.new }
{
    let full = refuses(table, hand, Refused::AtMost(2));
    let closed = shuts(table, hand);
    let joins = joins_slowly(table, hand);
    full && closed && joins
}

// The same while two other hands have an association each; and with one of these left the scope
// isn't joined yet.
fn turns_away_beside(
    table: &Table,
    first: &mut Worker,
    second: &mut Worker,
    third: &mut Worker,
) -> bool
    requires first { MayAssociate table.now first.old }
    requires second { MayAssociate table.now second.old }
    requires third { MayAssociate table.now third.old }
    ensures { MayAssociate table.now third.new }
{
    match enter(table, first) {
        Err(_) => false,
        Ok(one) => {
            let told = turns_away_while(table, second, third);
            leave(table, first, one);
            told
        }
    }
}

fn turns_away_while(table: &Table, second: &mut Worker, third: &mut Worker) -> bool
    requires second { MayAssociate table.now second.old }
    requires third { MayAssociate table.now third.old }
    ensures { MayAssociate table.now third.new }
{
    match enter(table, second) {
        Err(_) => false,
        Ok(two) => {
            let told = turns_away(table, third);
            leave(table, second, two);
            let early = has_joined(table, third);
            told && !early
        }
    }
}

// Whether all is refused in a joined scope, which another join finds joined.
fn is_over(table: &Table, hand: &mut Worker) -> bool
    requires { MayAssociate table.now hand.old }
{
    let joined = has_joined(table, hand);
    let refused = refuses(table, hand, Refused::Joined);
    let state = look(table, hand);
    let again = join_now(table, hand);
    joined && refused && state == ScopeState::Joined && again == JoinStart::Joined
}

// Both, one after the other.
fn turns_away_to_the_end(
    table: &Table,
    mut first: Worker,
    mut second: Worker,
    mut third: Worker,
) -> bool
    requires first { MayAssociate table.now first }
    requires second { MayAssociate table.now second }
    requires third { MayAssociate table.now third }
{
    let told = turns_away_beside(table, &mut first, &mut second, &mut third);
    let over = is_over(table, &mut third);
    drop(first);
    drop(second);
    drop(third);
    told && over
}

#[test]
fn the_first_reason_is_told(rt: HostRuntime) -> Result<(), Fail> {
    let (table, first, second, third) = full_for_two(rt.alloc())?;
    let told = turns_away_to_the_end(&table, first, second, third);
    drop(table);
    assert!(rt; told);
    Ok(())
}

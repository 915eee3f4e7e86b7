//! How futures are spawned, polled, abandoned and swept, over a table of a few blocks.
ghost use Rattle.std.specs.Prelude.{◌≤◌, IfSome};
ghost use Rattle.std.specs.Thread.{IsSync};
ghost use Rattle.plan_kinds.specs.Runnable.{IsRunnable};
ghost use Rattle.exec_recv.specs.Over.{IsOver};
ghost use Rattle.exec_recv.specs.Sites.{IsSite};
ghost use Rattle.node_walks.specs.Starts.{CanRun};
ghost use Rattle.spawn_future.specs.Keeping.{IsKeeping};
ghost use Rattle.spawn_future.specs.Slots.{WaitsNowhere};
ghost use Rattle.hand_tests.specs.Ready.{IsFirst};

use exec_recv::Site;
use exec_value::{Completion, Data, Datum};
use life_rules::Name;
use node_tree::{Context, ScopeKind};
use op_table::{Hand, OpTable};
use plan_reader::read_plan;
use plan_shape::Plan;
use spawn_future::{Env, Futures, Item, Mail, Polled, SpawnFault, Stepper};
use std::alloc::Global;
use std::sync::Wait;

mod acts;

// Names of nodes that are ready are told to nobody.
#[derive(Drop)]
struct NoMail;

impl Mail for NoMail {
    ghost use Rattle.std.specs.Prelude.{◌≡◌, ⊤};

    ghost keeps = { λ _ _. ⊤ };

    ghost hears = { λ _ _ old new. new ≡ old };

    ghost none = { λ _. tt };

    ghost on = { λ _ _ _ _ _. tt };

    fn ready<R: Wait + Sync>(&mut self, _rt: &R, _name: Name, _on: Context) {}
}

// What a spawn came to.
#[derive(Clone, Copy, PartialEq, Eq)]
enum Spawn {
    Spawned,
    Full,
    Scope,
    NoBlock,
    // the owner waits for one already, or no record could be made
    Not,
}

// What a poll came to.
#[derive(Clone, Copy, PartialEq, Eq)]
enum Poll {
    // the value 5, and no request was seen
    Five,
    Other,
    Waiting,
    Unknown,
}

// The plan of these bytes.
fn read(alloc: Global, bytes: &[u8]) -> Option<Plan>
    ensures { IfSome result (λ plan. IsRunnable plan) }
{
    match read_plan(alloc, bytes) {
        Ok(plan) => {
            // Asked for what it says of every plan.
            let _ = plan.size();
            Some(plan)
        }
        Err(_) => None,
    }
}

// The plan with this root.
fn plan_of(alloc: Global, root: &str) -> Option<Plan>
    ensures { IfSome result (λ plan. IsRunnable plan) }
{
    match format!(in alloc; "{{\"version\":2,\"input\":\"int\",\"root\":{root}}}") {
        Ok(text) => {
            let plan = read(alloc, text.as_bytes());
            drop(text);
            plan
        }
        Err(_) => None,
    }
}

// A table of so many blocks over the plan, and its one hand. Its scope takes two associations.
fn opened(alloc: Global, plan: &Plan, blocks: u32) -> Option<(OpTable<Item>, Hand<Item>)>
    requires some { 1 ≤ blocks }
    requires few { blocks ≤ 3 }
    ensures over { IfSome result (λ t. IsOver t.0 plan.now) }
    ensures hand { IfSome result (λ t. IsFirst t.0 t.1) }
{
    let tree = plan.tree();
    match OpTable::open(alloc, tree, plan, blocks, 1, ScopeKind::Simple, 2) {
        Ok((table, mut hands)) => {
            // Asked for what they say of every tree and of every plan.
            let over = table.tree();
            let nodes = over.size();
            let size = plan.size();
            let _ = (nodes, size);
            let hand = hands.swap_remove(0);
            drop(hands);
            Some((table, hand))
        }
        Err(_) => None,
    }
}

// The start of the plan's operation for the record `5`, of number 1.
fn started<R, T>(site: &Site<R, T>) -> Option<Env>
    requires site { IsSite site.now }
    ensures { IfSome result (λ env. CanRun site.now env) }
{
    let datum = Datum::Int(5);
    if !datum.is_of(site.plan.settings().input) {
        return None;
    }
    Some(Env::of_record(site.plan, Data::one(site.alloc, datum), 1, false))
}

// An owner of this number.
fn owner(node: u32) -> Name {
    Name {
        block: 0,
        generation: 0,
        node,
    }
}

// Whether it is the value 5.
fn is_five(done: &Completion) -> bool {
    match done {
        Completion::Value(data) => matches!(data.as_slice(), [Datum::Int(5)]),
        _ => false,
    }
}

// Polls the owner's future.
fn poll_for<T: Stepper, R>(
    site: &Site<R, T>,
    hand: &mut Hand<Item>,
    futures: &mut Futures,
    owner: Name,
) -> Poll
    requires site { IsSite site.now }
    requires keeping { IsKeeping site.now futures.old hand.old }
    ensures keeping { IsKeeping site.now futures.new hand.new }
{
    match futures.poll(site.table, hand, owner, site.gate) {
        Polled::Ready(done, asked) => {
            let five = is_five(&done);
            drop(done);
            if five && !asked {
                Poll::Five
            } else {
                Poll::Other
            }
        }
        Polled::Waiting => Poll::Waiting,
        Polled::Unknown => Poll::Unknown,
    }
}

// What the spawn's answer says.
fn spawn_of(answer: Result<(), SpawnFault>) -> Spawn {
    match answer {
        Ok(()) => Spawn::Spawned,
        Err(SpawnFault::Full(env)) => {
            drop(env);
            Spawn::Full
        }
        Err(SpawnFault::Scope(env, _)) => {
            drop(env);
            Spawn::Scope
        }
        Err(SpawnFault::NoBlock(env)) => {
            drop(env);
            Spawn::NoBlock
        }
    }
}

// Spawns an operation for an owner that is known to wait for none.
fn spawn_first<T: Stepper, R: Wait + Sync>(
    site: &Site<R, T>,
    hand: &mut Hand<Item>,
    futures: &mut Futures,
    owner: Name,
) -> Spawn
    requires sync { IsSync R.row }
    requires site { IsSite site.now }
    requires keeping { IsKeeping site.now futures.old hand.old }
    requires unowned { WaitsNowhere owner futures.old }
    ensures keeping { IsKeeping site.now futures.new hand.new }
{
    let Some(env) = started(site) else {
        return Spawn::Not;
    };
    match env.child() {
        Some(first) => spawn_of(futures.spawn(site, hand, owner, first, env, &mut NoMail)),
        None => {
            drop(env);
            Spawn::Not
        }
    }
}

// Spawns an operation for an owner that waits for none.
fn spawn_for<T: Stepper, R: Wait + Sync>(
    site: &Site<R, T>,
    hand: &mut Hand<Item>,
    futures: &mut Futures,
    owner: Name,
) -> Spawn
    requires sync { IsSync R.row }
    requires site { IsSite site.now }
    requires keeping { IsKeeping site.now futures.old hand.old }
    ensures keeping { IsKeeping site.now futures.new hand.new }
{
    match futures.poll(site.table, hand, owner, site.gate) {
        Polled::Unknown => spawn_first(site, hand, futures, owner),
        Polled::Waiting => Spawn::Not,
        Polled::Ready(done, _) => {
            drop(done);
            Spawn::Not
        }
    }
}

//! A turn of the loop.
ghost use Rattle.std.specs.Prelude.{◌≡◌, true, false, length};
ghost use Rattle.std.specs.Thread.{IsSync};
ghost use Rattle.table_steps.specs.Views.{IsHandOf, IsSameHand, Stays, knows};
ghost use Rattle.deck_relay.specs.SameDecks.{KeepsDeck};
ghost use Rattle.exec_recv.specs.Asides.{KeepsAside};
ghost use Rattle.exec_recv.specs.Over.{IsOver};
ghost use Rattle.exec_recv.specs.Sites.{IsSite};
ghost use Rattle.node_walks.specs.Mails.{HearsAll};
ghost use Rattle.node_walks.specs.Resting.{IsAtRest};
ghost use Rattle.node_walks.specs.Since.{OnlyLooks};
ghost use Rattle.run_loop.specs.Delayed.{HasTurned, TakesSoMany};
ghost use Rattle.run_loop.specs.Loops.{IsReady, KeepsCounts, KeepsDelays, deck_of};
ghost use Rattle.run_loop.specs.Fetches.{HearsName};
ghost use Rattle.run_loop.specs.Serves.{MayHelp, ServesAll, ServesMore, moment};
ghost use Rattle.run_loop.specs.Turns.{IsInner, IsLeft, AreAllLeft, TakesNamed, MeetsFirst, MeetsAll, MissesAll, FindsNothing, OnlyMeets};
ghost use Rattle.run_loop.specs.Scans.{OnlyPolls, OnlyTurns};

use crate::delaying::serve_delays;
use crate::loop_mail::LoopMail;
use crate::looped::Loop;
use crate::scanning::scan_blocks;
use crate::serving::one_more;
use exec_recv::{Item, Site, Stepper};
use life_rules::{Name, Resting};
use node_walks::serve;
use op_slot::{Hand, OpTable};
use std::mem;
use std::sync::Wait;

// The name is of a place of the table, and of no root.
fn is_inner(table: &OpTable<Item>, name: Name) -> bool
    requires over { IsOver table.now table.now.frame.over.value }
    ensures yes { result ≡ true → IsInner table.now name }
    ensures no { result ≡ false → ¬ IsInner table.now name }
{
    let size = table.tree().size();
    name.block < table.blocks() && name.node < size - 1
}

// Takes the node of a name that the loop was told of, where it is ready. A root is left for
// `collect`, and a name of no place is no hint.
fn serve_name<T: Stepper, R: Wait + Sync>(
    site: &Site<R, T>,
    hand: &mut Hand<Item>,
    names: &mut LoopMail,
    helps: bool,
    name: Name,
) -> bool
    requires sync { IsSync R.row }
    requires hand { IsHandOf site.now hand.old }
    requires site { IsSite site.now }
    requires first { (knows hand.old).number ≡ 0 }
    requires rests { IsAtRest (knows hand.old) }
    ensures stays { Stays site.now hand.old hand.new }
    ensures rests { IsAtRest (knows hand.new) }
    ensures aside { KeepsAside hand.old.me hand.new.me }
    ensures served { result ≡ true → HearsAll HearsName names.old names.new
        (TakesNamed T.does site.now helps name hand.old.me hand.new.me) }
    ensures left { result ≡ false → IsLeft site.now hand.old.me hand.new.me helps name }
    ensures looks { result ≡ false → OnlyLooks hand.old.me hand.new.me }
    ensures unheard { result ≡ false → names.new ≡ names.old }
    ensures deck { KeepsDeck names.old.deck names.new.deck }
{
    if !is_inner(site.table, name) {
        return false;
    }
    if serve(site, hand, names, name, Resting::Loop) {
        return true;
    }
    if !helps {
        return false;
    }
    serve(site, hand, names, name, Resting::Pool)
}

// Takes the nodes of these names, from the front.
fn serve_each<T: Stepper, R: Wait + Sync>(
    site: &Site<R, T>,
    hand: &mut Hand<Item>,
    names: &mut LoopMail,
    helps: bool,
    told: &[Name],
) -> u32
    requires sync { IsSync R.row }
    requires hand { IsHandOf site.now hand.old }
    requires site { IsSite site.now }
    requires first { (knows hand.old).number ≡ 0 }
    requires rests { IsAtRest (knows hand.old) }
    ensures stays { Stays site.now hand.old hand.new }
    ensures rests { IsAtRest (knows hand.new) }
    ensures aside { KeepsAside hand.old.me hand.new.me }
    ensures served { ServesMore T.does site.now (MayHelp helps) 0 result
        (moment hand.old names.old) (moment hand.new names.new) }
    ensures met { MeetsFirst T.does site.now helps told.now (length told.now)
        hand.old.me hand.new.me }
    ensures none { result ≡ 0 → AreAllLeft site.now hand.old.me hand.new.me helps told.now }
    ensures deck { KeepsDeck names.old.deck names.new.deck }
{
    let mut taken = 0;
    for name in told {
        if serve_name(site, hand, names, helps, *name) {
            taken = one_more(taken);
        }
    }
    taken
}

impl Loop {
    // Takes the nodes of the names that it was told of, and goes on with each. Where it helps the
    // pool and was told of none, it takes a name of its deck.
    fn poll_names<T: Stepper, R: Wait + Sync>(&mut self, site: &Site<R, T>) -> u32
        requires sync { IsSync R.row }
        requires ready { IsReady site.now self.old }
        requires site { IsSite site.now }
        ensures ready { IsReady site.now self.new }
        ensures same { IsSameHand self.old.hand self.new.hand }
        ensures counts { KeepsCounts self.old self.new }
        ensures delays { KeepsDelays self.old self.new }
        ensures aside { KeepsAside self.old.hand.me self.new.hand.me }
        ensures served { ServesAll T.does site.now (MayHelp self.old.helps) result
            self.old self.new }
        ensures met { MeetsAll T.does site.now self.old self.new }
        ensures only { OnlyMeets T.does site.now self.old self.new }
        ensures none { result ≡ 0 → MissesAll site.now self.old self.new }
        ensures deck { KeepsDeck (deck_of self.old) (deck_of self.new) }
    {
        self.names.fetch(site.rt, self.helps);
        mem::swap(&mut self.names.list, &mut self.served);
        let taken = serve_each(
            site,
            &mut self.hand,
            &mut self.names,
            self.helps,
            &self.served,
        );
        self.served.clear();
        taken
    }

    /// One turn of the delays, after it has taken the nodes of the names that it was told of, and
    /// gone on with each: the list of parked delays goes on to the next turn, each delay of the
    /// plan is looked at in each block, and those that are due are taken. A delay of so many turns
    /// is due in the turn that comes so many turns after the one in which it was first seen parked,
    /// and is taken out of the list in none before; none that is due is left in it. What the nodes
    /// leave ready is told for the next call. Each node that it was told of, but of roots, is taken
    /// and stepped, in the order in which they were told, or its word, at its own step of this
    /// call, said that it isn't ready at the name's generation in the loop, nor where the loop
    /// helps in the pool. A loop that helps the pool and was told of none takes a name of its deck,
    /// before all else, and does so with that. The answer is how many it took, as far as it can be
    /// counted, each of which the stepper stepped: what was ready in the loop, where it helps in
    /// the pool, and what was parked where it was due. Beside these it moved no word. 0 only where
    /// the word of each node that it was told of, but of roots, at its own step of this call, said
    /// that it isn't ready at the name's generation in the loop, nor where the loop helps in the
    /// pool.
    ///
    /// Step: those of `take` for each name; for each delay of the plan in each block one load of
    /// its control word, and that of `take_parked` where it is due; and those of the steps of its
    /// nodes.
    /// Needs: the loop is ready. The table is over the stepper's plan, whose kinds match.
    /// Afterwards: the loop is ready. Its operations are as before.
    pub fn poll<T: Stepper, R: Wait + Sync>(&mut self, site: &Site<R, T>) -> u32
        requires sync { IsSync R.row }
        requires ready { IsReady site.now self.old }
        requires site { IsSite site.now }
        ensures ready { IsReady site.now self.new }
        ensures same { IsSameHand self.old.hand self.new.hand }
        ensures counts { KeepsCounts self.old self.new }
        ensures aside { KeepsAside self.old.hand.me self.new.hand.me }
        ensures served { TakesSoMany T.does site.now result self.old self.new }
        ensures met { MeetsAll T.does site.now self.old self.new }
        ensures only { OnlyPolls T.does site.now result self.old self.new }
        ensures turn { HasTurned site.now result self.old self.new }
        ensures none { result ≡ 0 → MissesAll site.now self.old self.new }
        ensures deck { KeepsDeck (deck_of self.old) (deck_of self.new) }
    {
        let taken = self.poll_names(site);
        serve_delays(
            site,
            &mut self.hand,
            &mut self.names,
            &mut self.delays,
            &self.delay_nodes,
            taken,
        )
    }

    /// One turn: polls, and where that took no node, looks at each node of the table but the roots,
    /// and goes on with each that it takes. What is said of `poll` is said of this. The answer is
    /// how many it took, each of which the stepper stepped; 0 only where the word of each node but
    /// the roots, at its own step of this call, said that it isn't ready in the loop, nor where the
    /// loop helps in the pool.
    ///
    /// Step: those of `poll`; then for each node one load of its control word, and where that says
    /// that it is ready, those of `take`; and those of the steps of its nodes.
    /// Needs: the loop is ready. The table is over the stepper's plan, whose kinds match.
    /// Afterwards: the loop is ready. Its operations are as before.
    pub fn turn<T: Stepper, R: Wait + Sync>(&mut self, site: &Site<R, T>) -> u32
        requires sync { IsSync R.row }
        requires ready { IsReady site.now self.old }
        requires site { IsSite site.now }
        ensures ready { IsReady site.now self.new }
        ensures same { IsSameHand self.old.hand self.new.hand }
        ensures counts { KeepsCounts self.old self.new }
        ensures aside { KeepsAside self.old.hand.me self.new.hand.me }
        ensures served { TakesSoMany T.does site.now result self.old self.new }
        ensures met { MeetsAll T.does site.now self.old self.new }
        ensures only { OnlyTurns T.does site.now result self.old self.new }
        ensures turn { HasTurned site.now result self.old self.new }
        ensures none { result ≡ 0 → FindsNothing site.now self.old self.new }
        ensures deck { KeepsDeck (deck_of self.old) (deck_of self.new) }
    {
        let taken = self.poll(site);
        if taken > 0 {
            return taken;
        }
        scan_blocks(site, &mut self.hand, &mut self.names, self.helps)
    }
}

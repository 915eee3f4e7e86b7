//! How a worker works until its scope is joined.
ghost use Rattle.std.specs.Prelude.{◌≡◌, true};
ghost use Rattle.std.specs.Thread.{IsSync};
ghost use Rattle.table_steps.specs.Views.{IsSameHand};
ghost use Rattle.exec_recv.specs.Asides.{KeepsAside};
ghost use Rattle.exec_recv.specs.Sites.{IsSite};
ghost use Rattle.deck_relay.specs.Desks.{KeepsDesk};
ghost use Rattle.steal_pool.specs.Rounds.{Comes};
ghost use Rattle.steal_pool.specs.Works.{IsReady, HasEnded};

use crate::taking::take_next;
use crate::worker::Worker;
use crate::working::{Worked, places_of};
use count_scope::is_joined;
use exec_recv::{Site, Stepper};
use std::sync::Wait;

/// What one round of a worker came to.
#[derive(Clone, Copy, PartialEq, Eq)]
pub(crate) enum Round {
    /// It took a node.
    Took,
    /// It found nothing.
    Idle,
    /// It found nothing, and read that the scope is joined.
    Ended,
}

impl Worker {
    // Works once, and where it found nothing looks at the scope.
    fn work_or_end<T: Stepper, R: Wait + Sync>(&mut self, site: &Site<R, T>) -> Round
        requires sync { IsSync R.row }
        requires ready { IsReady site.now self.old.hand }
        requires site { IsSite site.now }
        ensures ready { IsReady site.now self.new.hand }
        ensures same { IsSameHand self.old.hand self.new.hand }
        ensures aside { KeepsAside self.old.hand.me self.new.hand.me }
        ensures ended { Comes site.now result self.old.hand.me self.new.hand.me }
        ensures desk { KeepsDesk self.old.offers.desk self.new.offers.desk }
    {
        match self.work_once(site) {
            Worked::Took(_) => Round::Took,
            Worked::Idle => {
                if is_joined(site.table, &mut self.hand) {
                    Round::Ended
                } else {
                    Round::Idle
                }
            }
        }
    }

    // One round: by names alone, or one by which it may end.
    fn go_round<T: Stepper, R: Wait + Sync>(&mut self, site: &Site<R, T>) -> Round
        requires sync { IsSync R.row }
        requires ready { IsReady site.now self.old.hand }
        requires site { IsSite site.now }
        ensures ready { IsReady site.now self.new.hand }
        ensures same { IsSameHand self.old.hand self.new.hand }
        ensures aside { KeepsAside self.old.hand.me self.new.hand.me }
        ensures ended { Comes site.now result self.old.hand.me self.new.hand.me }
        ensures desk { KeepsDesk self.old.offers.desk self.new.offers.desk }
    {
        if self.offers.begin(site.rt) {
            return self.work_or_end(site);
        }
        let mut asks = places_of(site.table);
        match take_next(site, &mut self.hand, &mut self.offers, &mut asks) {
            Some(_) => Round::Took,
            None => {
                self.offers.doubt(asks);
                Round::Idle
            }
        }
    }

    // Goes one round, and where it found nothing waits. True only where the scope is joined.
    fn has_ended<T: Stepper, R: Wait + Sync>(&mut self, site: &Site<R, T>) -> bool
        requires sync { IsSync R.row }
        requires ready { IsReady site.now self.old.hand }
        requires site { IsSite site.now }
        ensures ready { IsReady site.now self.new.hand }
        ensures same { IsSameHand self.old.hand self.new.hand }
        ensures aside { KeepsAside self.old.hand.me self.new.hand.me }
        ensures ended { result ≡ true → HasEnded site.now self.old.hand.me self.new.hand.me }
        ensures desk { KeepsDesk self.old.offers.desk self.new.offers.desk }
    {
        match self.go_round(site) {
            Round::Took => false,
            Round::Idle => {
                self.offers.wait();
                false
            }
            Round::Ended => {
                let _counted = self.offers.leave();
                true
            }
        }
    }

    /// Works until the scope is joined (P3149, [exec.counting.scopes]). It returns only where a
    /// step of this call read so, and each node of the table but the roots was read as not ready in
    /// the pool, and since then it moved no word. It looks at the scope only where it found
    /// nothing. A worker with a desk sleeps where it found nothing, after it has looked at each
    /// node once more. What is promised holds if it returns.
    ///
    /// Step: those of `work_once`, and of `is_joined`.
    /// Needs, Afterwards: as `work_once`.
    pub fn serve<T: Stepper, R: Wait + Sync>(&mut self, site: &Site<R, T>)
        requires sync { IsSync R.row }
        requires ready { IsReady site.now self.old.hand }
        requires site { IsSite site.now }
        ensures ready { IsReady site.now self.new.hand }
        ensures same { IsSameHand self.old.hand self.new.hand }
        ensures aside { KeepsAside self.old.hand.me self.new.hand.me }
        ensures ended { HasEnded site.now self.old.hand.me self.new.hand.me }
        ensures desk { KeepsDesk self.old.offers.desk self.new.offers.desk }
    {
        for _ in site.rt.forever() {
            if self.has_ended(site) {
                return;
            }
        }
        unreachable!()
    }
}

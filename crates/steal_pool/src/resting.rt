//! How a worker that finds nothing waits for work.
ghost use Rattle.std.specs.Prelude.{◌≡◌};
ghost use Rattle.deck_relay.specs.Desks.{KeepsDesk};

use crate::worker_mail::WorkerMail;
use std::sync::Wait;
use std::thread::yield_now;

impl WorkerMail {
    /// What comes before a look: where the worker lay down, looked at all and found nothing, it
    /// sleeps. True where a look by names alone doesn't serve any more: the worker lies and is
    /// about to sleep, or it never sleeps, since it has no desk, or a backend that doesn't end; or
    /// the backend lost a name since the last time.
    pub fn begin<R: Wait>(&mut self, rt: &R) -> bool
        ensures { self.new.desk ≡ self.old.desk }
    {
        let lost = self.lost;
        self.lost = false;
        let Some(desk) = &self.desk else {
            return true;
        };
        let lies = self.vigil.begin(rt, desk.deck.sleeper());
        lies || lost || self.endless
    }

    /// A look by names found nothing, and might have asked for so many more. Where it might for
    /// none, the backend needn't ever end: then the worker would never come to lie down.
    pub fn doubt(&mut self, left: u32)
        ensures { self.new.desk ≡ self.old.desk }
    {
        if left == 0 {
            self.endless = true;
        }
    }

    /// The worker found something, or ends: it searches no more, and lies no more. True where it
    /// was counted as searching: hands that pushed a name meanwhile woke nobody.
    pub fn leave(&mut self) -> bool
        ensures { self.new.desk ≡ self.old.desk }
    {
        match &self.desk {
            None => false,
            Some(desk) => self.vigil.found(desk.deck.sleeper()),
        }
    }

    /// The worker found a name: it searches no more. Where it did, it wakes a hand: more names may
    /// stand where that one stood, and hands that pushed them meanwhile woke nobody.
    pub fn get_up(&mut self)
        ensures { KeepsDesk self.old.desk self.new.desk }
    {
        if !self.leave() {
            return;
        }
        match &self.desk {
            None => {}
            Some(desk) => {
                let _woken = desk.deck.sleeper().wake_one();
            }
        }
    }

    /// The worker found nothing: it goes on with lying down. Without a desk it lets other threads
    /// run.
    pub fn wait(&mut self)
        ensures { self.new.desk ≡ self.old.desk }
    {
        match &self.desk {
            None => yield_now(),
            Some(desk) => self.vigil.missed(desk.deck.sleeper()),
        }
    }
}

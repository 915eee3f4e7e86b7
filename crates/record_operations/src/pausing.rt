//! How hand 0 waits while there is nothing to do.

use run_loop::Loop;
use sleepers::Vigil;
use std::sync::Wait;

/// So many rounds in a row that took no node are followed by a look at each node of the table,
/// where hand 0 doesn't sleep: that costs more than all the work, and is needed where a name was
/// lost.
const IDLE_ROUNDS: u32 = 64;

/// How hand 0 waits. A round and then a look at the operation that it waits for are a look of its
/// vigil. Where it has none, it lets other threads run after each round that took no node.
#[derive(Clone, Copy, Debug, PartialEq, Eq)]
pub(crate) struct Pause {
    /// It has one where another hand wakes it by each name that it waits for.
    vigil: Option<Vigil>,
    /// How many rounds in a row took no node.
    idle: u32,
}

impl Pause {
    /// It was never idle.
    pub(crate) fn new(sleeps: bool) -> Pause {
        Pause {
            vigil: if sleeps { Some(Vigil::new()) } else { None },
            idle: 0,
        }
    }

    /// What comes before a round: where hand 0 lay down and nothing was ready since, it sleeps.
    /// Whether the round is to look at each node.
    pub(crate) fn begin<R: Wait>(&mut self, rt: &R, looped: &Loop) -> bool {
        match (&mut self.vigil, looped.sleeper()) {
            (Some(vigil), Some(sleeper)) => vigil.begin(rt, sleeper),
            _ => self.is_long_idle(),
        }
    }

    // After many idle rounds a look at each node is due.
    fn is_long_idle(&mut self) -> bool {
        if self.idle < IDLE_ROUNDS {
            return false;
        }
        self.idle = 0;
        true
    }

    /// What comes after a round that took so many nodes.
    pub(crate) fn end(&mut self, looped: &Loop, taken: u32) {
        if taken > 0 {
            self.stir(looped);
            return;
        }
        self.idle = self.idle.saturating_add(1);
        if self.vigil.is_none() {
            looped.give_way(taken);
        }
    }

    /// The operation that it waits for isn't complete.
    pub(crate) fn wait_on(&mut self, looped: &Loop) {
        if self.idle == 0 {
            return;
        }
        match (&mut self.vigil, looped.sleeper()) {
            (Some(vigil), Some(sleeper)) => vigil.missed(sleeper),
            _ => {}
        }
    }

    /// There is no room for an operation: where it lies it doesn't sleep, since it looked at no
    /// operation that may make some.
    pub(crate) fn lack_room(&mut self, looped: &Loop) {
        let lies = match &self.vigil {
            None => false,
            Some(vigil) => vigil.is_lying(),
        };
        if !lies {
            self.wait_on(looped);
        }
    }

    /// There is something to do: it gets up.
    pub(crate) fn stir(&mut self, looped: &Loop) {
        self.idle = 0;
        match (&mut self.vigil, looped.sleeper()) {
            (Some(vigil), Some(sleeper)) => {
                let _counted = vigil.found(sleeper);
            }
            _ => {}
        }
    }
}

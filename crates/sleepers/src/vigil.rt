//! How a hand that finds nothing waits.
ghost use Rattle.std.specs.Prelude.{◌≡◌, false};
ghost use Rattle.sleepers.specs.declared.vigil.Stage.TheVariants.{Awake};
ghost use Rattle.sleepers.specs.Stages.{has_bit, is_lying};

use crate::patience::Patience;
use crate::sleeper::Sleeper;
use std::sync::Wait;
use std::thread::yield_now;

/// How far a hand is with lying down.
#[derive(Clone, Copy, Debug, PartialEq, Eq)]
pub enum Stage {
    /// It has work, or looks for names for the first time since it had.
    Awake,
    /// It found no name so many times. It is counted as searching.
    Looking(u32),
    /// It looks by names no more: it lies down before it looks again.
    Tired,
    /// Its bit is up, and it looks at all that it may wait for.
    Lying,
    /// Its bit is up, and since then it looked at all, and found nothing.
    Looked,
}

/// The vigil of one hand: it looks for work, lies down, looks at all once more, and sleeps.
///
///     Awake --missed--> Looking --missed, as often as it has patience--> Tired
///       ^                                                                  | begin: lies down
///       |                                                                  v
///       +---begin: sleeps until it is woken--- Looked <--missed, at all-- Lying
///
///     each of these --found--> Awake          Awake --missed, where two search------> Tired
///
/// A look stands between `begin`, which says whether it is to be at all, and `found` or `missed`.
/// From when a hand lies down whoever pushes a name wakes it. So it sleeps only where all that it
/// waits for was looked at after that, and nothing was there. A token that comes late costs a look.
#[derive(Clone, Copy, Debug, PartialEq, Eq)]
pub struct Vigil {
    pub(crate) stage: Stage,
    pub(crate) patience: Patience,
}

impl Vigil {
    /// The vigil of a hand that has work.
    pub fn new() -> Vigil
        ensures { result.stage ≡ Awake }
    {
        Vigil {
            stage: Stage::Awake,
            patience: Patience::greatest(),
        }
    }

    /// Its bit is up, and it has to look at all.
    pub fn is_lying(&self) -> bool
        ensures { result ≡ is_lying self.now.stage }
    {
        self.stage == Stage::Lying
    }

    /// What comes before a look. Where all was looked at since it lay down, the hand sleeps until
    /// it is woken. True where it lies: then it looks at all, and else by names alone.
    pub fn begin<R: Wait>(&mut self, rt: &R, sleeper: &Sleeper) -> bool
        ensures { result ≡ is_lying self.new.stage }
    {
        match self.stage {
            Stage::Awake => {}
            Stage::Looking(misses) => self.look_on(misses),
            Stage::Tired => self.lie_down(sleeper),
            Stage::Lying => yield_now(),
            Stage::Looked => self.sleep(rt, sleeper),
        }
        self.is_lying()
    }

    /// A look found something: the hand searches no more, and lies no more. True where it was
    /// counted as searching: hands that pushed a name meanwhile woke nobody.
    pub fn found(&mut self, sleeper: &Sleeper) -> bool
        ensures { self.new.stage ≡ Awake }
    {
        let stage = self.stage;
        self.stage = Stage::Awake;
        let counted = match stage {
            Stage::Awake => false,
            Stage::Tired => false,
            Stage::Looking(misses) => {
                self.patience.found_after(misses);
                true
            }
            Stage::Lying => !sleeper.get_up(),
            Stage::Looked => !sleeper.get_up(),
        };
        if counted {
            sleeper.leave_search();
        }
        counted
    }

    /// A look found nothing.
    pub fn missed(&mut self, sleeper: &Sleeper)
        ensures { has_bit self.new.stage ≡ has_bit self.old.stage }
    {
        self.stage = match self.stage {
            Stage::Awake => {
                if sleeper.try_search() {
                    Stage::Looking(1)
                } else {
                    Stage::Tired
                }
            }
            Stage::Looking(misses) => self.tire(sleeper, misses),
            Stage::Tired => Stage::Tired,
            Stage::Lying => Stage::Looked,
            Stage::Looked => Stage::Looked,
        };
    }

    // It found nothing so many times, and once more.
    fn tire(&self, sleeper: &Sleeper, misses: u32) -> Stage
        ensures { has_bit result ≡ false }
    {
        if self.patience.ends_after(misses) {
            sleeper.leave_search();
            return Stage::Tired;
        }
        Stage::Looking(misses.saturating_add(1))
    }

    // It looks again, after other threads where its looks are over.
    fn look_on(&self, misses: u32) {
        if self.patience.yields_after(misses) {
            yield_now();
        }
    }

    // It puts its bit up.
    fn lie_down(&mut self, sleeper: &Sleeper) {
        self.patience.lay_down();
        sleeper.lie_down();
        self.stage = Stage::Lying;
    }

    // It sleeps until a token comes. Where it takes its own bit, hands that found it there woke
    // nobody else: it has to search, or another does.
    fn sleep<R: Wait>(&mut self, rt: &R, sleeper: &Sleeper) {
        sleeper.park(rt);
        self.stage = if sleeper.get_up() && !sleeper.try_search() {
            Stage::Awake
        } else {
            Stage::Looking(0)
        };
    }
}

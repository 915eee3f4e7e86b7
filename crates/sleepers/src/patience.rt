//! How long a hand looks before it lies down.
/// How many looks in a row a hand makes at most before it lets other threads run.
const MOST_LOOKS: u32 = 256;

/// How many of the looks after these it makes at most, and at least. Before each of them other
/// threads run.
const MOST_YIELDS: u32 = 64;

const LEAST_YIELDS: u32 = 2;

/// Each time that a hand has lain down so often, it tries once more how long looking takes.
const NAPS_PER_TRY: u32 = 64;

/// How often a hand looks for names before it lies down. It learns this from what looking came to:
///
///     found by a look       -> twice as many looks
///     found by a yield      -> half of the looks: another thread wanted this processor
///     found by later yields -> twice as many of both: another processor was at it
///     lay down              -> half of both, and now and then the greatest numbers again
///
/// So where it pays to look, a hand doesn't sleep, and where it doesn't, idling costs two yields.
#[derive(Clone, Copy, Debug, PartialEq, Eq)]
pub(crate) struct Patience {
    /// How many looks it makes before it lets other threads run.
    looks: u32,
    /// And how many after that, before it lies down.
    yields: u32,
    /// How often it lay down since it last tried the greatest numbers.
    naps: u32,
}

// Twice a number and one, but at most `most`.
fn grown(number: u32, most: u32) -> u32 {
    number.saturating_mul(2).saturating_add(1).min(most)
}

impl Patience {
    /// The greatest.
    pub(crate) fn greatest() -> Patience {
        Patience {
            looks: MOST_LOOKS,
            yields: MOST_YIELDS,
            naps: 0,
        }
    }

    /// Whether a hand that has found nothing so many times lets other threads run before it looks
    /// again.
    pub(crate) fn yields_after(&self, misses: u32) -> bool {
        self.looks < misses
    }

    /// Whether a hand that has found nothing so many times looks by names no more.
    pub(crate) fn ends_after(&self, misses: u32) -> bool {
        self.looks.saturating_add(self.yields) < misses
    }

    /// A hand found something after it had found nothing so many times.
    pub(crate) fn found_after(&mut self, misses: u32) {
        if misses == 0 {
            return;
        }
        if misses - 1 == self.looks {
            self.looks /= 2;
            return;
        }
        if self.looks < misses {
            self.yields = grown(self.yields, MOST_YIELDS);
        }
        self.looks = grown(self.looks, MOST_LOOKS);
    }

    /// The hand lies down.
    pub(crate) fn lay_down(&mut self) {
        if self.naps < NAPS_PER_TRY {
            self.naps += 1;
            self.looks /= 2;
            self.yields = (self.yields / 2).max(LEAST_YIELDS);
        } else {
            *self = Patience::greatest();
        }
    }
}

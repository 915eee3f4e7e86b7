//! Backends in one order, from before their workers begin.
ghost use Rattle.std.specs.Prelude.{◌≡◌, ◌+◌, ◌≤◌, IfSome, MatchOption, vec_len};
ghost use Rattle.steal_pool.specs.Arrangements.{HasGiven};

use crate::arranged::Arranged;
use crate::given::Given;
use pool_backends::{Backend, Order};

/// The backends of a crew's workers, which it gives out one by one, arranged in the order that was
/// asked for. Nobody gets at one that isn't arranged so.
#[derive(Drop)]
pub struct Arrangement {
    backends: Vec<Box<dyn Backend + Send>>,
    // what will be told when all are given out
    told: Given,
}

impl Arrangement {
    /// The first so many of these backends, in this order. The others are dropped unused.
    pub fn of(mut backends: Vec<Box<dyn Backend + Send>>, count: usize, order: Order) -> Arrangement
        requires { count ≤ vec_len backends }
        ensures told { HasGiven order (vec_len backends) count result.told }
        ensures left { vec_len result.backends ≡ count }
    {
        let asked = backends.len();
        backends.truncate(count);
        Arrangement {
            backends,
            told: Given {
                order,
                asked,
                given: count,
            },
        }
    }

    /// Gives out the last of the backends, where one is left.
    pub fn give(&mut self) -> Option<Arranged>
        ensures order { IfSome result (λ one. one.order ≡ self.old.told.order) }
        ensures told { self.new.told ≡ self.old.told }
        ensures left { MatchOption result (vec_len self.old.backends ≡ 0)
            (λ _. vec_len self.new.backends + 1 ≡ vec_len self.old.backends) }
    {
        let backend = self.backends.pop()?;
        Some(Arranged::new(backend, self.told.order))
    }

    /// Tells what was given out.
    ///
    /// Needs: none is left.
    pub fn end(self) -> Given
        requires { vec_len self.backends ≡ 0 }
        ensures { result ≡ self.told }
    {
        self.told
    }
}

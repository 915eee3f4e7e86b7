//! What a deck steals through from one deque.
ghost use Rattle.std.specs.Prelude.{◌≡◌, ◌<◌, []};
ghost use Rattle.crossbeam_deque.specs.Handles.{view, IsPassOf, stealer_deque, stealer_flavor};

use crate::deques::Thief;
use crate::tokens::Tokens;
use crossbeam_deque::Pass;
use life_rules::Name;

/// A stealer of one deque, and a pass of it that gives nothing.
#[derive(Drop)]
pub struct Theft {
    pub(crate) stealer: Thief,
    pub(crate) pass: Pass<Name, Tokens>,
    ghost seated: { IsPassOf (stealer_deque stealer) pass },
    ghost first_in: { stealer_flavor stealer ≡ 0 },
    ghost part: { (view pass).share ≡ 1 },
    ghost bare: { (view pass).given ≡ [] },
}

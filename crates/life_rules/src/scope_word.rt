//! How the word of a counting scope reads (P3149, [exec.scope]).
//!
//! Four bits, none of which is ever cleared, and the count of associations:
//!
//! | joined | joining | used or count above 0 | closed | the scope is |
//! |---|---|---|---|---|
//! | no | no | no | no | unused: it may be joined at once |
//! | no | no | no | yes | unused and closed: so may this |
//! | no | no | yes | no | open: associations are made |
//! | no | no | yes | yes | closed: associations are refused |
//! | no | yes | either | no | open and joining: the last to leave seals it |
//! | no | yes | either | yes | closed and joining |
//! | yes | yes | either | either | joined, for good |
ghost use Rattle.std.specs.Prelude.{◌≡◌};
ghost use Rattle.life_rules.specs.Scopes.{scope_state, refusal};

use crate::scope::{Refused, ScopeState, ScopeWord};

/// What a scope's word says ([exec.scope.simple.counting]). A count above 0 reads as used: an
/// association is in the making, or is being refused.
pub fn scope_state(word: ScopeWord) -> ScopeState
    ensures { result ≡ scope_state word }
{
    if word.joined {
        ScopeState::Joined
    } else if word.joining {
        if word.closed {
            ScopeState::ClosedAndJoining
        } else {
            ScopeState::OpenAndJoining
        }
    } else if !word.used && word.count == 0 {
        if word.closed {
            ScopeState::UnusedAndClosed
        } else {
            ScopeState::Unused
        }
    } else if word.closed {
        ScopeState::Closed
    } else {
        ScopeState::Open
    }
}

/// Why a scope that takes at most so many associations turns one away, if it does. Of several
/// reasons it is the first: joined, closed, as many as it takes.
pub fn refusal(word: ScopeWord, most: u32) -> Option<Refused>
    ensures { result ≡ refusal word most }
{
    if word.joined {
        Some(Refused::Joined)
    } else if word.closed {
        Some(Refused::Closed)
    } else if word.count >= most {
        Some(Refused::AtMost(word.count))
    } else {
        None
    }
}

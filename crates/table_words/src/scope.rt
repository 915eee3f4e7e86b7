//! The word of the counting scope (P3149, [exec.scope]).
ghost use Rattle.std.specs.Prelude.{◌≡◌};
ghost use Rattle.table_words.specs.ScopeNumbers.{scope_written, scope_read};

use crate::halves::{code, pack, stamp};
use life_rules::ScopeWord;

/// The number of the scope's word.
pub fn scope_number(word: ScopeWord) -> u64
    ensures value { result ≡ scope_written word }
    ensures reads { scope_read result ≡ word }
{
    let used = if word.used { 1 } else { 0 };
    let closed = if word.closed { 2 } else { 0 };
    let joining = if word.joining { 4 } else { 0 };
    let joined = if word.joined { 8 } else { 0 };
    pack(used + closed + joining + joined, word.count)
}

/// What the scope's word says.
pub fn read_scope(word: u64) -> ScopeWord
    ensures { result ≡ scope_read word }
{
    let flags = stamp(word);
    ScopeWord {
        used: flags % 2 == 1,
        closed: flags / 2 % 2 == 1,
        joining: flags / 4 % 2 == 1,
        joined: flags / 8 % 2 == 1,
        count: code(word),
    }
}

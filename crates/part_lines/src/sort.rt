//! Of which sort the words of a line are.
ghost use Rattle.std.specs.Prelude.{◌≡◌, false};
ghost use Rattle.part_lines.specs.Sorts.{is_value_words, is_error_words, sort_of};

use exec_value::is_error_name;

/// What a line says behind its number.
#[derive(Clone, Copy, Debug, PartialEq, Eq)]
pub enum Sort {
    Value,
    Error,
    Stopped,
    NoMemory,
    BadRecord,
}

/// Whether these are the words of a value.
#[inline(always)]
fn is_value(words: &[u8]) -> bool
    ensures { result ≡ is_value_words words.now }
{
    words == b"value".as_slice() || words.starts_with(b"value ")
}

/// Whether these are the words of an error.
fn is_error(words: &[u8]) -> bool
    ensures { result ≡ is_error_words words.now }
{
    words.starts_with(b"error ") && is_error_name(&words[6..])
}

/// Of which sort the words of a line are. `None` says that no run writes them.
#[inline(always)]
#[tactic(auto, unfolding(crate::specs::Sorts::sort_of))]
pub(crate) fn sort_of(words: &[u8]) -> Option<Sort>
    ensures { result ≡ sort_of words.now }
{
    if is_value(words) {
        return Some(Sort::Value);
    }
    rarer_sort_of(words)
}

/// The same of words that aren't those of a value.
#[tactic(auto, unfolding(crate::specs::Sorts::sort_of))]
fn rarer_sort_of(words: &[u8]) -> Option<Sort>
    requires { is_value_words words.now ≡ false }
    ensures { result ≡ sort_of words.now }
{
    if is_error(words) {
        Some(Sort::Error)
    } else if words == b"stopped".as_slice() {
        Some(Sort::Stopped)
    } else if words == b"out-of-memory".as_slice() {
        Some(Sort::NoMemory)
    } else if words == b"bad-record".as_slice() {
        Some(Sort::BadRecord)
    } else {
        None
    }
}

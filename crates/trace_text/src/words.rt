//! What the words of a line say.
ghost use Rattle.std.specs.Prelude.{◌≡◌, IfOk};
ghost use Rattle.trace_text.specs.Words.{with_digit, number_in, place_in, source_in, children_in, resting_in, cause_in, bit_in, kind_in, counted_in, joining_in, closed_in, scope_in};

use crate::cut::cut_at;
use crate::word_table::is_text;
use life_rules::{Place, Resting, ScopeWord, SourceAt};
use node_tree::{NodeList, ScopeKind};
use std::alloc::{AllocError, Global};

/// The number of decimal digits, where it fits.
pub fn read_number(bytes: &[u8]) -> Option<u32>
    ensures { result ≡ number_in bytes.now }
{
    let mut number = 0;
    for byte in bytes {
        number = with_digit(number, *byte)?;
    }
    Some(number)
}

// The number with one digit more.
fn with_digit(number: u32, byte: u8) -> Option<u32>
    ensures { result ≡ with_digit number byte }
{
    if !byte.is_ascii_digit() {
        return None;
    }
    let wide = u64::from(number) * 10 + u64::from(byte - b'0');
    if wide > u64::from(u32::MAX) {
        return None;
    }
    Some(wide as u32)
}

/// A place: the block's number, a dot and the node's.
#[tactic(auto, unfolding(crate::specs::Words::place_in))]
pub fn read_place(bytes: &[u8]) -> Option<Place>
    ensures { result ≡ place_in bytes.now }
{
    let cut = cut_at(bytes, b'.')?;
    let block = read_number(cut.front)?;
    let node = read_number(cut.rest)?;
    Some(Place { block, node })
}

/// A source: the scope's, or a place.
#[tactic(auto, unfolding(crate::specs::Words::source_in))]
pub fn read_source(bytes: &[u8]) -> Option<SourceAt>
    ensures { result ≡ source_in bytes.now }
{
    if is_text(bytes, b"scope") {
        return Some(SourceAt::Scope);
    }
    let place = read_place(bytes)?;
    Some(SourceAt::At(place))
}

/// Numbers with commas between them.
pub fn read_children(alloc: Global, bytes: &[u8]) -> Result<Option<NodeList>, AllocError>
    ensures { IfOk result (λ children. children ≡ children_in bytes.now) }
{
    let mut children = Vec::new(alloc);
    for part in bytes.split(|byte| *byte == b',') {
        let Some(child) = read_number(part) else {
            return Ok(None);
        };
        children.push(child)?;
    }
    let children = NodeList::from_slice(alloc, &children)?;
    Ok(Some(children))
}

/// Where a node rests.
#[tactic(auto, unfolding(crate::specs::Words::resting_in))]
pub fn read_resting(bytes: &[u8]) -> Option<Resting>
    ensures { result ≡ resting_in bytes.now }
{
    if is_text(bytes, b"loop") {
        return Some(Resting::Loop);
    }
    if is_text(bytes, b"pool") {
        return Some(Resting::Pool);
    }
    if is_text(bytes, b"parked") {
        return Some(Resting::Parked);
    }
    None
}

/// Whether a request is made for a failure.
#[tactic(auto, unfolding(crate::specs::Words::cause_in))]
pub fn read_cause(bytes: &[u8]) -> Option<bool>
    ensures { result ≡ cause_in bytes.now }
{
    if is_text(bytes, b"plain") {
        return Some(false);
    }
    if is_text(bytes, b"failure") {
        return Some(true);
    }
    None
}

/// A scope's kind.
#[tactic(auto, unfolding(crate::specs::Words::kind_in))]
pub fn read_kind(bytes: &[u8]) -> Option<ScopeKind>
    ensures { result ≡ kind_in bytes.now }
{
    if is_text(bytes, b"simple") {
        return Some(ScopeKind::Simple);
    }
    if is_text(bytes, b"counting") {
        return Some(ScopeKind::Counting);
    }
    None
}

#[tactic(auto, unfolding(crate::specs::Words::bit_in))]
fn read_bit(bytes: &[u8]) -> Option<bool>
    ensures { result ≡ bit_in bytes.now }
{
    if is_text(bytes, b"0") {
        return Some(false);
    }
    if is_text(bytes, b"1") {
        return Some(true);
    }
    None
}

// The last bit of a scope's word, and the count.
#[tactic(auto, unfolding(crate::specs::Words::counted_in))]
fn read_counted(bytes: &[u8]) -> Option<ScopeWord>
    ensures { result ≡ counted_in bytes.now }
{
    let cut = cut_at(bytes, b' ')?;
    let joined = read_bit(cut.front)?;
    let count = read_number(cut.rest)?;
    Some(ScopeWord {
        used: false,
        closed: false,
        joining: false,
        joined,
        count,
    })
}

// The last two bits, and the count.
#[tactic(auto, unfolding(crate::specs::Words::joining_in))]
fn read_joining(bytes: &[u8]) -> Option<ScopeWord>
    ensures { result ≡ joining_in bytes.now }
{
    let cut = cut_at(bytes, b' ')?;
    let joining = read_bit(cut.front)?;
    let word = read_counted(cut.rest)?;
    Some(ScopeWord { joining, ..word })
}

// The last three bits, and the count.
#[tactic(auto, unfolding(crate::specs::Words::closed_in))]
fn read_closed(bytes: &[u8]) -> Option<ScopeWord>
    ensures { result ≡ closed_in bytes.now }
{
    let cut = cut_at(bytes, b' ')?;
    let closed = read_bit(cut.front)?;
    let word = read_joining(cut.rest)?;
    Some(ScopeWord { closed, ..word })
}

/// The word of a scope: four bits and the count, with blanks between them.
#[tactic(auto, unfolding(crate::specs::Words::scope_in))]
pub fn read_scope(bytes: &[u8]) -> Option<ScopeWord>
    ensures { result ≡ scope_in bytes.now }
{
    let cut = cut_at(bytes, b' ')?;
    let used = read_bit(cut.front)?;
    let word = read_closed(cut.rest)?;
    Some(ScopeWord { used, ..word })
}

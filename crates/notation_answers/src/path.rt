//! Where a node stands in a text, by its path in the JSON.
ghost use Rattle.std.specs.Prelude.{◌≡◌, ◌<◌, drop, slice_index};
ghost use Rattle.notation_answers.specs.Paths.{child_at, number_of_digit, indexed, node_spot, spot_at, spot_in, step_of};

use plan_notation::Read;

/// A step of a path: which of its children it goes to, and how many bytes say so.
#[derive(Clone, Copy)]
pub(crate) struct Step {
    pub child: usize,
    pub length: usize,
}

/// The step to an only child, or to the first of two.
const FIRST: Step = Step {
    child: 0,
    length: 6,
};

/// How many bytes stand before the node that a place names; before the setting of the scope, or the
/// text, where it names none.
pub(crate) fn spot_of(place: &[u8], read: &Read) -> usize
    ensures { result ≡ spot_in read.now place.now }
{
    if place.starts_with(b" at root") {
        node_spot(&place[8..], read)
    } else {
        read.scope_at
    }
}

/// How many bytes stand before the node of this path from the root.
#[tactic(auto, using(crate::proofs::PathLemmas::path_done))]
fn node_spot(path: &[u8], read: &Read) -> usize
    ensures { result ≡ node_spot read.now.spots path.now }
{
    let mut number = read.spots.len().saturating_sub(1);
    let mut rest = path;
    'steps: for _count in 0..path.len() {
        match step_of(rest) {
            None => return spot_at(read, number),
            Some(step) => {
                number = child_at(read, number, step.child);
                rest = behind(rest, step.length);
            }
        }
    }
    spot_at(read, number)
}

/// What is left behind so many bytes.
fn behind(path: &[u8], length: usize) -> &[u8]
    ensures { result.now ≡ drop length path.now }
{
    &path[length.min(path.len())..]
}

/// How many bytes stand before the node of this number.
fn spot_at(read: &Read, number: usize) -> usize
    ensures { result ≡ spot_at read.now.spots number }
{
    match read.spots.get(number) {
        Some(spot) => spot.at,
        None => 0,
    }
}

/// The number of a node's child.
fn child_at(read: &Read, number: usize, child: usize) -> usize
    ensures { result ≡ child_at read.now.spots number child }
{
    match read.spots.get(number) {
        Some(spot) => match spot.below.get(child) {
            Some(below) => *below,
            None => 0,
        },
        None => 0,
    }
}

/// Which of its children a path goes to first.
fn step_of(path: &[u8]) -> Option<Step>
    ensures { result ≡ step_of path.now }
{
    if path.starts_with(b".children[") {
        return indexed(10, 0, &path[10..]);
    }
    if path.starts_with(b".bodies[") {
        return indexed(8, 1, &path[8..]);
    }
    if path.starts_with(b".child") {
        return Some(FIRST);
    }
    if path.starts_with(b".first") {
        return Some(FIRST);
    }
    if path.starts_with(b".second") {
        return Some(Step {
            child: 1,
            length: 7,
        });
    }
    None
}

/// A step by a number of one digit or two and its bracket, behind so many bytes.
fn indexed(before: usize, first: usize, items: &[u8]) -> Option<Step>
    requires before { before < 16 }
    requires first { first < 2 }
    ensures { result ≡ indexed before first items.now }
{
    let tens = number_of_digit(byte_at(items, 0));
    if byte_at(items, 1) == b']' {
        return Some(Step {
            child: first + tens,
            length: before + 2,
        });
    }
    Some(Step {
        child: first + (10 * tens + number_of_digit(byte_at(items, 1))),
        length: before + 3,
    })
}

/// A byte, or 0 past the end.
fn byte_at(items: &[u8], index: usize) -> u8
    ensures { result ≡ slice_index items.now index }
{
    match items.get(index) {
        Some(byte) => *byte,
        None => 0,
    }
}

/// What a digit says.
fn number_of_digit(byte: u8) -> usize
    ensures { result ≡ number_of_digit byte }
{
    usize::from(byte.saturating_sub(b'0'))
}

//! The lines of nodes, entries and choices.
ghost use Rattle.std.specs.Prelude.{◌≡◌, IfOk};
ghost use Rattle.trace_text.specs.Words.{parent_in, marked_in, marks_in, node_in, entry_in, choice_in};

use crate::cut::cut_at;
use crate::entry::{Choice, Entry};
use crate::read_event::read_event;
use crate::word_table::is_text;
use crate::words::read_number;
use node_tree::TreeNode;
use std::alloc::{AllocError, Global};

/// The node that a line says.
#[tactic(auto, unfolding(crate::specs::Words::node_in))]
pub fn parse_node(line: &[u8]) -> Option<TreeNode>
    ensures { result ≡ node_in line.now }
{
    let cut = cut_at(line, b' ')?;
    if !is_text(cut.front, b"node") {
        return None;
    }
    read_marks(cut.rest)
}

#[tactic(auto, unfolding(crate::specs::Words::marks_in))]
fn read_marks(bytes: &[u8]) -> Option<TreeNode>
    ensures { result ≡ marks_in bytes.now }
{
    let cut = cut_at(bytes, b' ')?;
    let parent = read_parent(cut.front)?;
    let node = read_marked(cut.rest)?;
    Some(TreeNode { parent, ..node })
}

#[tactic(auto, unfolding(crate::specs::Words::parent_in))]
fn read_parent(bytes: &[u8]) -> Option<Option<u32>>
    ensures { result ≡ parent_in bytes.now }
{
    if is_text(bytes, b"-") {
        return Some(None);
    }
    let parent = read_number(bytes)?;
    Some(Some(parent))
}

#[tactic(auto, unfolding(crate::specs::Words::marked_in))]
fn read_marked(bytes: &[u8]) -> Option<TreeNode>
    ensures { result ≡ marked_in bytes.now }
{
    let plain = TreeNode {
        parent: None,
        source: false,
        unstoppable: false,
    };
    if is_text(bytes, b"plain") {
        return Some(plain);
    }
    if is_text(bytes, b"source") {
        return Some(TreeNode {
            source: true,
            ..plain
        });
    }
    if is_text(bytes, b"unstoppable") {
        return Some(TreeNode {
            unstoppable: true,
            ..plain
        });
    }
    None
}

/// The entry that a line says.
#[tactic(auto, unfolding(crate::specs::Words::entry_in))]
pub fn parse_entry(alloc: Global, line: &[u8]) -> Result<Option<Entry>, AllocError>
    ensures { IfOk result (λ entry. entry ≡ entry_in line.now) }
{
    let Some(cut) = cut_at(line, b' ') else {
        return Ok(None);
    };
    let Some(hand) = read_number(cut.front) else {
        return Ok(None);
    };
    let Some(event) = read_event(alloc, cut.rest)? else {
        return Ok(None);
    };
    Ok(Some(Entry { hand, event }))
}

/// The choice that a line says.
#[tactic(auto, unfolding(crate::specs::Words::choice_in))]
pub fn parse_choice(line: &[u8]) -> Option<Choice>
    ensures { result ≡ choice_in line.now }
{
    let cut = cut_at(line, b' ')?;
    let hand = read_number(cut.front)?;
    let choice = read_number(cut.rest)?;
    Some(Choice { hand, choice })
}

//! How lines are written. Each call adds to the end of `out`.
ghost use Rattle.std.specs.Prelude.{OnOk, ◌++◌, ◌∷◌, [], decimal};
ghost use Rattle.trace_text.specs.Adding.{Adds};
ghost use Rattle.trace_text.specs.Texts.{apart, line_feed, entry_text, choice_text, node_text, parent_text, mark_text, kind_text, numbers_text, lines, setup_text};

use crate::entry::{Choice, Entry};
use crate::opening::Opening;
use crate::put::{put, put_number};
use crate::put_events::put_event;
use node_tree::{ScopeKind, Tree, TreeNode};
use std::alloc::AllocError;

/// Adds the lines of entries.
pub fn put_entries(entries: &[Entry], out: &mut Vec<u8>) -> Result<(), AllocError>
    ensures { OnOk result (Adds out.old.items out.new.items (lines entry_text entries.now)) }
{
    for entry in entries {
        put_entry(entry, out)?;
    }
    Ok(())
}

// Adds the line of an entry.
fn put_entry(entry: &Entry, out: &mut Vec<u8>) -> Result<(), AllocError>
    ensures { OnOk result
        (Adds out.old.items out.new.items (entry_text entry.now ++ line_feed ∷ [])) }
{
    put_entry_text(entry, out)?;
    put(b"\n", out)
}

/// Adds the text of an entry.
pub fn put_entry_text(entry: &Entry, out: &mut Vec<u8>) -> Result<(), AllocError>
    ensures { OnOk result (Adds out.old.items out.new.items (entry_text entry.now)) }
{
    put_number(entry.hand, out)?;
    put(b" ", out)?;
    put_event(&entry.event, out)
}

/// Adds the text of a choice.
pub fn put_choice_text(choice: Choice, out: &mut Vec<u8>) -> Result<(), AllocError>
    ensures { OnOk result (Adds out.old.items out.new.items (choice_text choice)) }
{
    put_number(choice.hand, out)?;
    put(b" ", out)?;
    put_number(choice.choice, out)
}

fn put_parent(parent: Option<u32>, out: &mut Vec<u8>) -> Result<(), AllocError>
    ensures { OnOk result (Adds out.old.items out.new.items (parent_text parent)) }
{
    match parent {
        None => put(b"-", out),
        Some(parent) => put_number(parent, out),
    }
}

fn put_mark(node: TreeNode, out: &mut Vec<u8>) -> Result<(), AllocError>
    ensures { OnOk result (Adds out.old.items out.new.items (mark_text node)) }
{
    if node.source {
        return put(b"source", out);
    }
    if node.unstoppable {
        return put(b"unstoppable", out);
    }
    put(b"plain", out)
}

// Adds the line of a node.
fn put_node(node: TreeNode, out: &mut Vec<u8>) -> Result<(), AllocError>
    ensures { OnOk result (Adds out.old.items out.new.items (node_text node ++ line_feed ∷ [])) }
{
    put_node_text(node, out)?;
    put(b"\n", out)
}

/// Adds the text of a node.
pub fn put_node_text(node: TreeNode, out: &mut Vec<u8>) -> Result<(), AllocError>
    ensures { OnOk result (Adds out.old.items out.new.items (node_text node)) }
{
    put(b"node ", out)?;
    put_parent(node.parent, out)?;
    put(b" ", out)?;
    put_mark(node, out)
}

// Adds the lines of a tree's nodes.
fn put_nodes(tree: &Tree, out: &mut Vec<u8>) -> Result<(), AllocError>
    ensures { OnOk result (Adds out.old.items out.new.items (lines node_text tree.now)) }
{
    for number in 0..tree.size() {
        put_node(*tree.node(number), out)?;
    }
    Ok(())
}

fn put_kind(kind: ScopeKind, out: &mut Vec<u8>) -> Result<(), AllocError>
    ensures { OnOk result (Adds out.old.items out.new.items (kind_text kind)) }
{
    match kind {
        ScopeKind::Simple => put(b"simple", out),
        ScopeKind::Counting => put(b"counting", out),
    }
}

// Adds a number, and the blank behind it.
fn put_number_apart(number: u32, out: &mut Vec<u8>) -> Result<(), AllocError>
    ensures { OnOk result (Adds out.old.items out.new.items (apart (decimal number) [])) }
{
    put_number(number, out)?;
    put(b" ", out)
}

/// Adds the numbers of an opening.
pub fn put_numbers(
    nodes: u32,
    blocks: u32,
    hands: u32,
    kind: ScopeKind,
    most: u32,
    out: &mut Vec<u8>,
) -> Result<(), AllocError>
    ensures { OnOk result
        (Adds out.old.items out.new.items (numbers_text nodes blocks hands kind most)) }
{
    put(b"exec ", out)?;
    put_number_apart(nodes, out)?;
    put_number_apart(blocks, out)?;
    put_number_apart(hands, out)?;
    put_kind(kind, out)?;
    put(b" ", out)?;
    put_number(most, out)
}

/// Adds the lines of an opening.
pub fn put_opening(opening: &Opening, out: &mut Vec<u8>) -> Result<(), AllocError>
    ensures { OnOk result (Adds out.old.items out.new.items (setup_text opening.now)) }
{
    let tree = opening.tree();
    let blocks = opening.blocks();
    let hands = opening.hands();
    let kind = opening.kind();
    let most = opening.most();
    put_numbers(tree.size(), blocks, hands, kind, most, out)?;
    put(b"\n", out)?;
    put_nodes(tree, out)?;
    Ok(())
}

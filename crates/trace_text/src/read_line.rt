//! What a line says: it says something exactly where it is the text of that.
ghost use Rattle.std.specs.Prelude.{◌≡◌, nat_lt, IfOk};
ghost use Rattle.std.specs.List.{list_all};
ghost use Rattle.trace_text.specs.Reading.{entry_of, choice_of, node_of, header_of, has_parent, is_within};
ghost use Rattle.trace_text.specs.Values.{has_entry, has_choice, has_event, has_place, has_block, has_source, has_children};

use crate::entry::{Choice, Entry};
use crate::header::{Header, read_header as parse_header};
use crate::limits::{ASSOCIATIONS, BLOCKS, HANDS, NODES};
use crate::opening::Opening;
use crate::parse_line::{parse_choice, parse_entry, parse_node};
use crate::parts::{Parts, parts_of};
use crate::put_line::{put_choice_text, put_entry_text, put_node_text, put_numbers};
use crate::word_table::is_text;
use life_rules::{Event, Place, SourceAt};
use node_tree::TreeNode;
use std::alloc::{AllocError, Global};

/// The entry that a line says.
pub fn read_entry(
    alloc: Global,
    opening: &Opening,
    line: &[u8],
) -> Result<Option<Entry>, AllocError>
    ensures { IfOk result (λ entry. entry ≡ entry_of opening.now line.now) }
{
    let Some(entry) = parse_entry(alloc, line)? else {
        return Ok(None);
    };
    let mut text = Vec::new(alloc);
    put_entry_text(&entry, &mut text)?;
    if !has_entry(opening, &entry) || !is_text(text.as_slice(), line) {
        return Ok(None);
    }
    Ok(Some(entry))
}

/// The choice that a line says.
pub fn read_choice(
    alloc: Global,
    opening: &Opening,
    line: &[u8],
) -> Result<Option<Choice>, AllocError>
    ensures { IfOk result (λ choice. choice ≡ choice_of opening.now line.now) }
{
    let Some(choice) = parse_choice(line) else {
        return Ok(None);
    };
    let mut text = Vec::new(alloc);
    put_choice_text(choice, &mut text)?;
    if choice.hand >= opening.hands() || !is_text(text.as_slice(), line) {
        return Ok(None);
    }
    Ok(Some(choice))
}

/// The node, one of so many, that a line says.
pub fn read_node(alloc: Global, nodes: u32, line: &[u8]) -> Result<Option<TreeNode>, AllocError>
    ensures { IfOk result (λ node. node ≡ node_of nodes line.now) }
{
    let Some(node) = parse_node(line) else {
        return Ok(None);
    };
    let mut text = Vec::new(alloc);
    put_node_text(node, &mut text)?;
    if !has_parent(nodes, node) || !is_text(text.as_slice(), line) {
        return Ok(None);
    }
    Ok(Some(node))
}

/// The numbers that a first line says.
pub fn read_header(alloc: Global, line: &[u8]) -> Result<Option<Header>, AllocError>
    ensures { IfOk result (λ header. header ≡ header_of line.now) }
{
    let Some(header) = parse_header(line) else {
        return Ok(None);
    };
    let mut text = Vec::new(alloc);
    put_numbers(
        header.nodes,
        header.blocks,
        header.hands,
        header.kind,
        header.most,
        &mut text,
    )?;
    if !is_within(header) || !is_text(text.as_slice(), line) {
        return Ok(None);
    }
    Ok(Some(header))
}

// The parent is one of so many nodes.
fn has_parent(nodes: u32, node: TreeNode) -> bool
    ensures { result ≡ has_parent nodes node }
{
    match node.parent {
        None => true,
        Some(parent) => parent < nodes,
    }
}

// All numbers are within the limits.
fn is_within(header: Header) -> bool
    ensures { result ≡ is_within header }
{
    (1 <= header.nodes && header.nodes <= NODES)
        && ((1 <= header.blocks && header.blocks <= BLOCKS)
            && ((1 <= header.hands && header.hands <= HANDS)
                && (1 <= header.most && header.most <= ASSOCIATIONS)))
}

// All that the entry names is there.
fn has_entry(opening: &Opening, entry: &Entry) -> bool
    ensures { result ≡ has_entry opening.now entry.now }
{
    entry.hand < opening.hands() && has_event(opening, &entry.event)
}

fn has_event(opening: &Opening, event: &Event) -> bool
    ensures { result ≡ has_event opening.now event.now }
{
    match parts_of(event) {
        Parts::Block(_, block) => has_block(opening, block),
        Parts::Place(_, place) => has_place(opening, place),
        Parts::Bare(_) => true,
        Parts::Await(place, children) => {
            has_place(opening, place) && has_children(opening, children)
        }
        Parts::Rest(place, _) => has_place(opening, place),
        Parts::Look(source, None) => has_source(opening, source) && true,
        Parts::Look(source, Some(place)) => {
            has_source(opening, source) && has_place(opening, place)
        }
        Parts::Request(source, _) => has_source(opening, source),
        Parts::Run(source, place) => has_source(opening, source) && has_place(opening, place),
        Parts::SealScan(source) => has_source(opening, source),
        Parts::Seal(_) => true,
    }
}

fn has_block(opening: &Opening, block: u32) -> bool
    ensures { result ≡ has_block opening.now block }
{
    block < opening.blocks()
}

fn has_place(opening: &Opening, place: Place) -> bool
    ensures { result ≡ has_place opening.now place }
{
    has_block(opening, place.block) && place.node < opening.tree().size()
}

fn has_source(opening: &Opening, source: SourceAt) -> bool
    ensures { result ≡ has_source opening.now source }
{
    match source {
        SourceAt::Scope => true,
        SourceAt::At(place) => has_place(opening, place),
    }
}

// At least one child is named, and all that are named are there.
fn has_children(opening: &Opening, children: &[u32]) -> bool
    ensures { result ≡ has_children opening.now children.now }
{
    !children.is_empty() && are_below(opening.tree().size(), children)
}

// Each number is one of so many nodes'.
fn are_below(nodes: u32, numbers: &[u32]) -> bool
    ensures { result ≡ list_all (λ n. nat_lt n nodes) numbers.now }
{
    numbers.iter().all(|number| *number < nodes)
}

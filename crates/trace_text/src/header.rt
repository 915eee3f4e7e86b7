//! The first line of a trace or a schedule.
ghost use Rattle.std.specs.Prelude.{◌≡◌};
ghost use Rattle.trace_text.specs.Words.{scope_numbers_in, hands_in, blocks_in, nodes_in, header_in};

use crate::cut::cut_at;
use crate::word_table::is_text;
use crate::words::{read_kind, read_number};
use node_tree::ScopeKind;

/// The numbers of an opening.
#[derive(Clone, Copy)]
pub struct Header {
    pub nodes: u32,
    pub blocks: u32,
    pub hands: u32,
    pub kind: ScopeKind,
    pub most: u32,
}

/// The numbers that a first line says.
#[tactic(auto, unfolding(crate::specs::Words::header_in))]
pub fn read_header(line: &[u8]) -> Option<Header>
    ensures { result ≡ header_in line.now }
{
    let cut = cut_at(line, b' ')?;
    if !is_text(cut.front, b"exec") {
        return None;
    }
    read_nodes(cut.rest)
}

#[tactic(auto, unfolding(crate::specs::Words::nodes_in))]
fn read_nodes(bytes: &[u8]) -> Option<Header>
    ensures { result ≡ nodes_in bytes.now }
{
    let cut = cut_at(bytes, b' ')?;
    let nodes = read_number(cut.front)?;
    let header = read_blocks(cut.rest)?;
    Some(Header { nodes, ..header })
}

#[tactic(auto, unfolding(crate::specs::Words::blocks_in))]
fn read_blocks(bytes: &[u8]) -> Option<Header>
    ensures { result ≡ blocks_in bytes.now }
{
    let cut = cut_at(bytes, b' ')?;
    let blocks = read_number(cut.front)?;
    let header = read_hands(cut.rest)?;
    Some(Header { blocks, ..header })
}

#[tactic(auto, unfolding(crate::specs::Words::hands_in))]
fn read_hands(bytes: &[u8]) -> Option<Header>
    ensures { result ≡ hands_in bytes.now }
{
    let cut = cut_at(bytes, b' ')?;
    let hands = read_number(cut.front)?;
    let header = read_scope_numbers(cut.rest)?;
    Some(Header { hands, ..header })
}

#[tactic(auto, unfolding(crate::specs::Words::scope_numbers_in))]
fn read_scope_numbers(bytes: &[u8]) -> Option<Header>
    ensures { result ≡ scope_numbers_in bytes.now }
{
    let cut = cut_at(bytes, b' ')?;
    let kind = read_kind(cut.front)?;
    let most = read_number(cut.rest)?;
    Some(Header {
        nodes: 0,
        blocks: 0,
        hands: 0,
        kind,
        most,
    })
}

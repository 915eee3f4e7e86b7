//! How the opening of a trace or a schedule is read.
ghost use Rattle.std.specs.Prelude.{◌≡◌, ◌≤◌, None, Some, Ok, Err, [], length, true, MatchOption, MatchResult, IfOk};
ghost use Rattle.trace_text.specs.declared.limits.TheConstants.{NODES};
ghost use Rattle.trace_text.specs.Reading.{lines_in, nodes_of, opening_of, tree_of, is_within, setup_of, IsFaultOf, ReadsNodes, ReadsOpening};
ghost use Rattle.trace_text.specs.Words.{cut_at};

use crate::cut::cut_at;
use crate::fault::TraceFault;
use crate::header::Header;
use crate::opening::Opening;
use crate::read_line::{read_header, read_node};
use node_tree::{Tree, TreeFault, TreeNode};
use std::alloc::Global;

/// A text that is read line by line: what is left of it.
#[derive(Clone, Copy)]
pub struct Lines<'a> {
    pub rest: &'a [u8],
}

impl<'a> Lines<'a> {
    /// The next line, where a line feed ends it.
    pub fn next_line(&mut self) -> Option<&'a [u8]>
        ensures { MatchOption result (cut_at 10 self.old.rest.now ≡ None)
            (λ line. cut_at 10 self.old.rest.now
            ≡ Some (record { front = line.now; rest = self.new.rest.now })) }
    {
        let cut = cut_at(self.rest, b'\n')?;
        self.rest = cut.rest;
        Some(cut.front)
    }
}

/// What the lines open with.
pub fn read_opening(alloc: Global, lines: &mut Lines<'_>) -> Result<Opening, TraceFault>
    ensures { ReadsOpening result lines.old.rest.now lines.new.rest.now }
{
    let Some(line) = lines.next_line() else {
        return Err(TraceFault::Line(1));
    };
    let Ok(read) = read_header(alloc, line) else {
        return Err(TraceFault::NoMemory);
    };
    let Some(header) = read else {
        return Err(TraceFault::Line(1));
    };
    match read_nodes(alloc, header.nodes, lines) {
        Err(fault) => Err(fault),
        Ok(nodes) => open(alloc, header, nodes),
    }
}

// The opening with this header and these nodes, where they are a tree.
fn open(alloc: Global, header: Header, nodes: Vec<TreeNode>) -> Result<Opening, TraceFault>
    requires within { is_within header ≡ true }
    requires nodes { length nodes.items ≡ header.nodes }
    ensures { let read = tree_of header (Ok (record { nodes = nodes.items; later = [] })) in
        MatchResult result (λ o. read ≡ Ok (record { setup = o; later = [] })) (IsFaultOf read) }
{
    match Tree::open(alloc, nodes) {
        Ok(tree) => Ok(Opening::new(tree, header.blocks, header.hands, header.kind, header.most)),
        Err(TreeFault::Shape(node)) => Err(TraceFault::Line(node + 2)),
        Err(TreeFault::NoMemory) => Err(TraceFault::NoMemory),
    }
}

// So many nodes on the next lines.
fn read_nodes(alloc: Global, total: u32, lines: &mut Lines<'_>) -> Result<Vec<TreeNode>, TraceFault>
    requires { total ≤ NODES }
    ensures read { ReadsNodes result total lines.old.rest.now lines.new.rest.now }
    ensures all { IfOk result (λ nodes. length nodes.items ≡ total) }
{
    let mut nodes = Vec::new(alloc);
    for number in 0..total {
        let Some(line) = lines.next_line() else {
            return Err(TraceFault::Line(number + 2));
        };
        let Ok(read) = read_node(alloc, total, line) else {
            return Err(TraceFault::NoMemory);
        };
        let Some(node) = read else {
            return Err(TraceFault::Line(number + 2));
        };
        let Ok(()) = nodes.push(node) else {
            return Err(TraceFault::NoMemory);
        };
    }
    Ok(nodes)
}

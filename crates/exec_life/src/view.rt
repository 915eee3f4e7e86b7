//! What one hand knows of its own doings. A hand is the token by which one thread works on the
//! words.
//!
//! Each place has cells, meant at its block's present generation. What the hand has of a node:
//!
//!     nothing --claim, await--> owes its start --begin--> holds
//!     holds --await, rest--> nothing --take, the last report--> holds
//!     holds --finish--> owes its report, or holds the finished root
//!     owes its report --report--> nothing        holds the finished root --release--> nothing
ghost use Rattle.std.specs.Prelude.{◌≡◌, ◌<◌, ◌^◌, ◌*◌, ◌-◌, IfOk, is_some, All, length};
ghost use Rattle.exec_life.specs.ViewLists.{KnowsPlace, KnowsSource, role_in, runs_in, seen_in, scan_in, is_holder, is_starter, is_reporter, is_finisher, root_in, IsBlankView, AreBlankViews};
ghost use Rattle.exec_life.specs.ViewWrites.{ForgetsFirst};

mod associations;
mod cells;

use crate::grid::Grid;
use life_rules::{Place, SourceAt};
use std::alloc::{AllocError, Global};
use std::marker::Model;

/// What a hand has of a node.
#[derive(Clone, Copy, Debug, PartialEq, Eq)]
pub enum Role {
    Nothing,
    /// It holds the node.
    Holds,
    /// It is to begin the node.
    OwesStart,
    /// It is to report the node's end to the parent.
    OwesReport,
    /// It holds the finished root.
    HoldsFinished,
}

/// What a hand knows of its own doings.
#[derive(Drop)]
pub struct View {
    blocks: u32,
    nodes: u32,
    roles: Grid<Role>,
    runs: Grid<bool>,
    unlooked: Grid<bool>,
    seen_after: Grid<bool>,
    seen: Grid<bool>,
    scans: Grid<Option<u32>>,
    scope_seen: bool,
    scope_scan: Option<u32>,
    made: u32,
    making: u32,
    refused: u32,
    requested: bool,
}

impl Model for View {
    ghost use Rattle.exec_life.specs.ViewLists.{ViewLists, AreCells};

    ghost Value = { ViewLists };

    ghost use Rattle.exec_life.specs.ViewInside.{cells_of};

    ghost view = { cells_of };

    ghost invariant = { λ v. AreCells (cells_of v) };
}

// What users of a state read.
impl View {
    /// Whether the hand holds the node.
    pub fn holds(&self, place: Place) -> bool
        requires { KnowsPlace self.now place }
        ensures { result ≡ is_holder (role_in self.now place.block place.node) }
    {
        matches!(self.role(place), Role::Holds)
    }

    /// Whether the hand is to begin the node.
    pub fn owes_start(&self, place: Place) -> bool
        requires { KnowsPlace self.now place }
        ensures { result ≡ is_starter (role_in self.now place.block place.node) }
    {
        matches!(self.role(place), Role::OwesStart)
    }

    /// Whether the hand is to report the node's end to the parent.
    pub fn owes_report(&self, place: Place) -> bool
        requires { KnowsPlace self.now place }
        ensures { result ≡ is_reporter (role_in self.now place.block place.node) }
    {
        matches!(self.role(place), Role::OwesReport)
    }

    /// Whether the hand holds the finished root of the block.
    pub fn holds_finished(&self, block: u32) -> bool
        requires { KnowsPlace self.now (root_in self.now block) }
        ensures { result ≡ is_finisher (role_in self.now block (self.now.nodes - 1)) }
    {
        let root = Place {
            block,
            node: self.nodes - 1,
        };
        matches!(self.role(root), Role::HoldsFinished)
    }

    /// Whether the hand runs the node's stop callback.
    pub fn runs(&self, place: Place) -> bool
        requires { KnowsPlace self.now place }
        ensures { result ≡ runs_in self.now place.block place.node }
    {
        self.runs.get(place)
    }

    /// Whether the hand scans the callbacks of this source.
    pub fn scans(&self, source: SourceAt) -> bool
        requires { KnowsSource self.now source }
        ensures { result ≡ is_some (scan_in self.now source) }
    {
        self.scan(source).is_some()
    }

    /// Whether the hand has seen the request on this source.
    pub fn seen(&self, source: SourceAt) -> bool
        requires { KnowsSource self.now source }
        ensures { result ≡ seen_in self.now source }
    {
        match source {
            SourceAt::Scope => self.scope_seen,
            SourceAt::At(place) => self.seen.get(place),
        }
    }
}

// How a view begins.
impl View {
    /// The view of a hand that has done nothing.
    pub(crate) fn new(alloc: Global, blocks: u32, nodes: u32) -> Result<View, AllocError>
        requires { blocks * nodes < 2 ^ 32 }
        ensures { IfOk result (IsBlankView blocks nodes) }
    {
        Ok(View {
            blocks,
            nodes,
            roles: Grid::new(alloc, blocks, nodes, Role::Nothing)?,
            runs: Grid::new(alloc, blocks, nodes, false)?,
            unlooked: Grid::new(alloc, blocks, nodes, false)?,
            seen_after: Grid::new(alloc, blocks, nodes, false)?,
            seen: Grid::new(alloc, blocks, nodes, false)?,
            scans: Grid::new(alloc, blocks, nodes, None)?,
            scope_seen: false,
            scope_scan: None,
            made: 0,
            making: 0,
            refused: 0,
            requested: false,
        })
    }
}

/// Clears all that any of these views knows of the block's places.
pub(crate) fn forget_each(views: &mut [View], block: u32)
    requires { All (λ v. block < v.blocks) views.old }
    ensures { ForgetsFirst views.old views.new block (length views.old) }
{
    for view in views.iter_mut() {
        view.forget(block);
    }
}

/// So many views of hands that have done nothing.
pub(crate) fn blank_views(
    alloc: Global,
    blocks: u32,
    nodes: u32,
    hands: u32,
) -> Result<Vec<View>, AllocError>
    requires { blocks * nodes < 2 ^ 32 }
    ensures { IfOk result (λ views. AreBlankViews blocks nodes hands views.items) }
{
    let mut views = Vec::with_capacity(alloc, hands as usize)?;
    for hand in 0..hands {
        views.push(View::new(alloc, blocks, nodes)?)?;
    }
    Ok(views)
}

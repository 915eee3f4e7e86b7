//! A grid of cells: one for each block and node.
ghost use Rattle.std.specs.Prelude.{◌≡◌, ◌<◌, ◌≤◌, ◌*◌, ◌+◌, ◌^◌, IfOk, vec_len, length};
ghost use Rattle.exec_life.specs.Grids.{Cells, at, IsBlank, SetsCell, ClearsRow};
ghost use Rattle.node_tree.specs.declared.node.TheConstants.{MOST_NODES};
ghost use Rattle.life_rules.specs.declared.limits.TheConstants.{MOST_BLOCKS};

use life_rules::Place;
use std::alloc::{AllocError, Global};
use std::marker::Model;

/// A cell for each block (the rows) and node (the columns).
#[derive(Drop)]
pub struct Grid<T> {
    rows: u32,
    columns: u32,
    cells: Vec<T>,
}

impl<T> Model for Grid<T> {
    ghost Value = { Cells T };

    ghost view = { λ grid.
        record { rows = grid.rows; columns = grid.columns; cells = grid.cells.items } };

    ghost invariant = { λ grid. length grid.cells.items ≡ grid.rows * grid.columns };
}

impl<T: Copy> Grid<T> {
    /// A grid that has this value in all cells.
    pub fn new(alloc: Global, rows: u32, columns: u32, value: T) -> Result<Grid<T>, AllocError>
        requires { rows * columns < 2 ^ 32 }
        ensures { IfOk result (IsBlank rows columns value) }
    {
        let number = (rows * columns) as usize;
        let mut cells = Vec::with_capacity(alloc, number)?;
        for filled in 0..number {
            cells.push(value)?;
        }
        Ok(Grid {
            rows,
            columns,
            cells,
        })
    }

    /// The value of the cell.
    pub fn get(&self, place: Place) -> T
        requires row { place.block < self.now.rows }
        requires column { place.node < self.now.columns }
        ensures { (d : T) → result ≡ at d self.now place.block place.node }
    {
        self.cells[place.block as usize * self.columns as usize + place.node as usize]
    }

    /// Puts the value into the cell.
    pub fn set(&mut self, place: Place, value: T)
        requires row { place.block < self.old.rows }
        requires column { place.node < self.old.columns }
        ensures { SetsCell self.old self.new place.block place.node value }
    {
        let index = place.block as usize * self.columns as usize + place.node as usize;
        self.cells[index] = value;
    }

    /// Puts the value into all cells of the block.
    pub fn clear_row(&mut self, block: u32, value: T)
        requires { block < self.old.rows }
        ensures { ClearsRow self.old self.new block value }
    {
        for node in 0..self.columns {
            self.set(Place { block, node }, value);
        }
    }
}

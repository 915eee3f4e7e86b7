//! The name of a block's root.
ghost use Rattle.std.specs.Prelude.{◌≡◌, ◌<◌};
ghost use Rattle.table_steps.specs.Views.{IsPlaceIn};
ghost use Rattle.table_steps.specs.Claims.{root_name};

use crate::table::OpTable;
use life_rules::Name;
use table_rules::Cargo;
use table_steps::Block;

impl<P: Cargo> OpTable<P> {
    /// The root of the block, which the hand that claimed it begins first.
    pub fn root(&self, block: Block) -> Name
        requires { block.index < self.now.frame.layout.blocks }
        ensures name { result ≡ root_name self.now block.index block.generation }
        ensures place { IsPlaceIn self.now result }
    {
        Name {
            block: block.index,
            generation: block.generation,
            node: self.frame.tree.size() - 1,
        }
    }
}

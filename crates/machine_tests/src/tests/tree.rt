//! Which source a node hears, and what is no tree. More of that are cases of the program
//! (tests/cases/machine.json).

use node_tree::{NearestSource, Tree, TreeFault, TreeNode};
use std::alloc::Global;
use std::test::Fail;

fn node(parent: Option<u32>) -> TreeNode {
    TreeNode {
        parent,
        source: false,
        unstoppable: false,
    }
}

fn fault_of(alloc: Global, nodes: Vec<TreeNode>) -> Option<TreeFault> {
    Tree::open(alloc, nodes).err()
}

#[test]
fn a_tree_tells_its_nodes_and_their_nearest_sources(rt: HostRuntime) -> Result<(), Fail> {
    let alloc = rt.alloc();
    let all = TreeNode {
        source: true,
        ..node(Some(5))
    };
    let unstoppable = TreeNode {
        unstoppable: true,
        ..node(Some(5))
    };
    let leaf = node(Some(2));
    let below = node(Some(3));
    let sheltered = node(Some(4));
    let nodes = vec![in alloc; leaf, sheltered, below, all, unstoppable, node(None)]?;
    let tree = Tree::open(alloc, nodes)?;
    assert_eq!(rt; tree.size(), 6);
    assert!(rt; tree.size() == 6);
    assert_eq!(rt; tree.node(3).parent, Some(5));
    assert_eq!(rt; tree.nearest(0), NearestSource::Node(3));
    assert_eq!(rt; tree.nearest(1), NearestSource::Nowhere);
    assert_eq!(rt; tree.nearest(2), NearestSource::Node(3));
    assert_eq!(rt; tree.nearest(3), NearestSource::Scope);
    assert_eq!(rt; tree.nearest(5), NearestSource::Scope);
    let twin = tree.clone()?;
    assert_eq!(rt; twin.size(), 6);
    Ok(())
}

#[test]
fn a_node_that_breaks_a_rule_is_told(rt: HostRuntime) -> Result<(), Fail> {
    let alloc = rt.alloc();
    let both = TreeNode {
        source: true,
        unstoppable: true,
        ..node(None)
    };
    let first = Some(TreeFault::Shape(0));
    assert_eq!(rt; fault_of(alloc, vec![in alloc]?), first);
    assert_eq!(rt; fault_of(alloc, vec![in alloc; both]?), first);
    assert_eq!(rt;
        fault_of(alloc, vec![in alloc; node(None), node(None)]?),
        first
    );
    Ok(())
}

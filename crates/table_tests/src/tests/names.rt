//! What goes into a set comes out, in the order of places.
ghost use Rattle.std.specs.Prelude.{◌≡◌, IfOk};
ghost use Rattle.name_set.specs.Sets.{IsEmpty};

use life_rules::Name;
use name_set::NameSet;
use std::alloc::Global;
use std::test::Fail;
use table_words::Layout;

// A set for three blocks of a hundred nodes.
fn for_three_blocks(alloc: Global) -> Result<NameSet, Fail>
    ensures layout { IfOk result (λ set. set.layout ≡ record { blocks = 3; nodes = 100 }) }
    ensures empty { IfOk result IsEmpty }
{
    let layout = Layout {
        blocks: 3,
        nodes: 100,
    };
    Ok(NameSet::empty(alloc, layout)?)
}

// Takes the first name out.
fn take(set: &mut NameSet) -> Option<Name>
    ensures layout { set.new.layout ≡ set.old.layout }
{
    let name = set.first()?;
    set.remove(name);
    Some(name)
}

#[test]
fn names_come_out_in_the_order_of_their_places(rt: HostRuntime) -> Result<(), Fail> {
    let mut set = for_three_blocks(rt.alloc())?;
    let first = Name {
        block: 2,
        generation: 4,
        node: 63,
    };
    let second = Name { node: 64, ..first };
    set.insert(second);
    set.insert(first);
    assert!(rt; set.contains(first));
    assert!(rt; take(&mut set) == Some(first));
    assert!(rt; !set.contains(first) && set.contains(second));
    assert!(rt; take(&mut set) == Some(second));
    assert!(rt; take(&mut set).is_none());
    Ok(())
}

//! The places and sources at which steps are looked for, in their order.
ghost use Rattle.std.specs.Prelude.{◌≡◌, ◌<◌, ◌++◌, ◌∷◌, [], IfOk, OnOk, true};
ghost use Rattle.std.specs.List.{flat_map};
ghost use Rattle.exec_life.specs.StateLists.{machine};
ghost use Rattle.life_rules.specs.LifeSteps.{may_be_awaited};
ghost use Rattle.life_rules.specs.States.{is_place, size, name_at, control_at};
ghost use Rattle.life_rules.specs.declared.event.SourceAt.TheVariants.{Scope, At};
ghost use Rattle.replay_core.specs.Listings.{nearest_source};
ghost use Rattle.replay_core.specs.Candidates.{places_of, places_in, fresh_children as children_of};

use exec_life::{NearestSource, State};
use life_rules::{ControlWord, Place, SourceAt};
use node_tree::NodeList;
use std::alloc::{AllocError, Global};

/// All places, by rising block and then node.
pub fn all_places(alloc: Global, state: &State) -> Result<Vec<Place>, AllocError>
    ensures { IfOk result (λ places. places.items ≡ places_of (machine state.now)) }
{
    let mut places = Vec::new(alloc);
    for block in 0..state.blocks() {
        add_places_in(state, block, &mut places)?;
    }
    Ok(places)
}

// Adds the places of a block.
fn add_places_in(state: &State, block: u32, places: &mut Vec<Place>) -> Result<(), AllocError>
    ensures { OnOk result
        (places.new.items ≡ places.old.items ++ places_in (machine state.now) block) }
{
    for node in 0..state.tree().size() {
        places.push(Place { block, node })?;
    }
    Ok(())
}

/// All sources, by rising place, the scope's last.
pub fn all_sources(alloc: Global, places: &[Place]) -> Result<Vec<SourceAt>, AllocError>
    ensures { IfOk result (λ sources.
        sources.items ≡ flat_map (λ p. At p ∷ []) places.now ++ Scope ∷ []) }
{
    let mut sources = Vec::new(alloc);
    for place in places {
        sources.push(SourceAt::At(*place))?;
    }
    sources.push(SourceAt::Scope)?;
    Ok(sources)
}

/// The nearest source of a place; none where nothing reaches it.
pub fn nearest_source(state: &State, place: Place) -> Option<SourceAt>
    requires { is_place (machine state.now) place ≡ true }
    ensures { result ≡ nearest_source (machine state.now) place }
{
    match state.tree().nearest(place.node) {
        NearestSource::Scope => Some(SourceAt::Scope),
        NearestSource::Node(node) => Some(SourceAt::At(Place {
            block: place.block,
            node,
        })),
        NearestSource::Nowhere => None,
    }
}

// How far the node of a place has come.
fn control_of(state: &State, place: Place) -> ControlWord
    requires { is_place (machine state.now) place ≡ true }
    ensures { let s = machine state.now in result ≡ control_at s (name_at s place) }
{
    state.words().control(place)
}

// The node is a child of the place's node, and hasn't begun.
fn is_fresh_child(state: &State, place: Place, node: u32) -> bool
    requires place { is_place (machine state.now) place ≡ true }
    requires node { node < size (machine state.now) }
    ensures { let s = machine state.now in result ≡ may_be_awaited s (name_at s place) node }
{
    let below = Place {
        block: place.block,
        node,
    };
    state.tree().node(node).parent == Some(place.node)
        && matches!(control_of(state, below), ControlWord::Idle)
}

/// The children of the place's node that haven't begun, by rising number.
pub fn fresh_children(alloc: Global, state: &State, place: Place) -> Result<NodeList, AllocError>
    requires { is_place (machine state.now) place ≡ true }
    ensures { IfOk result (λ children. children ≡ children_of (machine state.now) place) }
{
    let mut children = Vec::new(alloc);
    for node in 0..state.tree().size() {
        if !is_fresh_child(state, place, node) {
            continue;
        }
        children.push(node)?;
    }
    NodeList::from_slice(alloc, &children)
}

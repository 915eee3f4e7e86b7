//! The first node of a plan file that is sought: a node comes before those below it.
ghost use Rattle.std.specs.Prelude.{◌≡◌, ◌<◌, ◌-◌, IfOk};
ghost use Rattle.serde_json.specs.View.{items_view, view};
ghost use Rattle.plan_places.specs.Seeking.{below, found_by, in_array, in_child, in_items, in_parts, site_at};
ghost use Rattle.plan_places.specs.Told.{IsSite, first_of, site_of};

use crate::path::{Key, at_item, at_key};
use crate::sought::{Sought, below, is_it, reason_of};
use plan_reader::{MOST_LEVELS, NodeWord, is_first_version};
use plan_reasons::node_word_at;
use serde_json::Value;
use std::alloc::{AllocError, Global};

/// A node that was found: its path, and why it is refused.
#[derive(Drop)]
pub(crate) struct Spot {
    pub(crate) path: Vec<u8>,
    pub(crate) reason: String,
}

/// A search of nodes, in a plan of version 1 or of a later one, so many levels deep.
#[derive(Clone, Copy)]
struct Search {
    is_first: bool,
    levels: u32,
    sought: Sought,
}

impl Search {
    /// The search below a node of this name.
    fn under(self, word: NodeWord) -> Search
        requires { 0 < self.levels }
        ensures { result ≡
            record self { levels = self.levels - 1; sought = below self.sought word } }
    {
        Search {
            is_first: self.is_first,
            levels: self.levels - 1,
            sought: below(self.sought, word),
        }
    }

    /// This node, which is sought.
    fn spot(self, alloc: Global, path: &[u8], value: &Value) -> Result<Spot, AllocError>
        ensures { IfOk result (λ spot. site_of spot
            ≡ site_at self.is_first self.sought path.now (view value.now)) }
    {
        Ok(Spot {
            path: Vec::from_slice(alloc, path)?,
            reason: reason_of(alloc, self.is_first, self.sought, value)?,
        })
    }

    /// The first node that is sought, among this one and those below it.
    #[cycle(search)]
    fn first(self, alloc: Global, path: &[u8], value: &Value) -> Result<Option<Spot>, AllocError>
        ensures { IfOk result (IsSite (found_by self path.now (view value.now))) }
    {
        if self.levels == 0 {
            return Ok(None);
        }
        if is_it(alloc, self.is_first, self.sought, value)? {
            return Ok(Some(self.spot(alloc, path, value)?));
        }
        match node_word_at(self.is_first, value) {
            Some(word) => self.under(word).in_parts(alloc, word, path, value),
            None => Ok(None),
        }
    }

    /// The same of those below a node of this name.
    #[cycle(search)]
    #[tactic(auto, unfolding(crate::specs::Seeking::in_parts))]
    fn in_parts(
        self,
        alloc: Global,
        word: NodeWord,
        path: &[u8],
        value: &Value,
    ) -> Result<Option<Spot>, AllocError>
        ensures { IfOk result
            (IsSite (in_parts (found_by self) word path.now (view value.now))) }
    {
        match word {
            NodeWord::Leaf(_) => Ok(None),
            NodeWord::Adaptor(_) | NodeWord::Bulk => self.in_child(alloc, Key::Child, path, value),
            NodeWord::Let(_) => match self.in_child(alloc, Key::Child, path, value)? {
                Some(found) => Ok(Some(found)),
                None => self.in_array(alloc, Key::Bodies, path, value),
            },
            NodeWord::WhenAll => self.in_array(alloc, Key::Children, path, value),
            NodeWord::Ahead => match self.in_child(alloc, Key::First, path, value)? {
                Some(found) => Ok(Some(found)),
                None => self.in_child(alloc, Key::Second, path, value),
            },
        }
    }

    /// The same of the node at a key.
    #[cycle(search)]
    #[tactic(auto, unfolding(crate::specs::Seeking::in_child))]
    fn in_child(
        self,
        alloc: Global,
        key: Key,
        path: &[u8],
        value: &Value,
    ) -> Result<Option<Spot>, AllocError>
        ensures { IfOk result (IsSite (in_child (found_by self) key path.now (view value.now))) }
    {
        match value.get(key.name()) {
            Some(child) => {
                let below = at_key(alloc, path, key)?;
                self.first(alloc, &below, child)
            }
            None => Ok(None),
        }
    }

    /// The same of the nodes of the array at a key.
    #[cycle(search)]
    #[tactic(auto, unfolding(crate::specs::Seeking::in_array))]
    fn in_array(
        self,
        alloc: Global,
        key: Key,
        path: &[u8],
        value: &Value,
    ) -> Result<Option<Spot>, AllocError>
        ensures { IfOk result (IsSite (in_array (found_by self) key path.now (view value.now))) }
    {
        match value.get(key.name()).and_then(Value::as_array) {
            Some(values) => {
                let list = at_key(alloc, path, key)?;
                self.in_items(alloc, &list, values)
            }
            None => Ok(None),
        }
    }

    /// The same of these nodes of an array.
    #[cycle(search)]
    fn in_items(
        self,
        alloc: Global,
        path: &[u8],
        values: &[Value],
    ) -> Result<Option<Spot>, AllocError>
        ensures { IfOk result
            (IsSite (in_items (found_by self) 0 path.now (items_view values.now))) }
    {
        for index in 0..values.len() {
            let item = at_item(alloc, path, index as u64)?;
            if let Some(found) = self.first(alloc, &item, &values[index])? {
                return Ok(Some(found));
            }
        }
        Ok(None)
    }
}

/// The first node of a file that is sought.
#[tactic(auto, unfolding(crate::specs::Told::first_of))]
pub(crate) fn first_of(
    alloc: Global,
    sought: Sought,
    value: &Value,
) -> Result<Option<Spot>, AllocError>
    ensures { IfOk result (IsSite (first_of sought (view value.now))) }
{
    let search = Search {
        is_first: is_first_version(value),
        levels: MOST_LEVELS,
        sought,
    };
    match value.get("root") {
        Some(root) => search.first(alloc, b"root", root),
        None => Ok(None),
    }
}

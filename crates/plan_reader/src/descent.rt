//! How a walk goes down a plan file: a node, the parts of it by its name, and the nodes at its
//! keys.
ghost use Rattle.std.specs.Prelude.{◌≡◌, IfOk, OnOk};
ghost use Rattle.serde_json.specs.View.{view, items_view};
ghost use Rattle.plan_reader.specs.Roots.{IsTidy};
ghost use Rattle.plan_reader.specs.Walked.{child_at, each, list_at, none_listed, parts, walk};

use crate::node_parts::{adaptor_node, leaf_node, let_node};
use crate::node_word::{Adaptor, Let, NodeWord, node_keys, node_named};
use crate::walk::Walk;
use node_tree::NodeList;
use plan_parts::{FORM_FAULT, LIMIT_FAULT, NAME_FAULT, job_at, text_at};
use plan_rules::{Node, NodeId};
use serde_json::Value;
use std::alloc::{AllocError, Global};

impl Walk {
    /// Walks over a node and all below it, so many levels deep.
    #[cycle(walk)]
    fn node(&mut self, alloc: Global, value: &Value, levels: u32) -> Result<(), AllocError>
        requires { IsTidy self.old }
        ensures { OnOk result (self.new ≡ walk levels (view value.now) self.old) }
    {
        if levels == 0 {
            self.blame(LIMIT_FAULT);
            return Ok(());
        }
        match text_at(value, "do") {
            Some(name) => match node_named(self.is_first(), name) {
                Some(word) => {
                    self.check_keys(node_keys(word), value);
                    self.parts(alloc, word, value, levels - 1)
                }
                None => {
                    self.blame(NAME_FAULT);
                    Ok(())
                }
            },
            None => {
                self.blame(FORM_FAULT);
                Ok(())
            }
        }
    }

    /// The same over the parts of a node of this name.
    #[cycle(walk)]
    #[tactic(auto, unfolding(crate::specs::Walked::parts))]
    fn parts(
        &mut self,
        alloc: Global,
        word: NodeWord,
        value: &Value,
        levels: u32,
    ) -> Result<(), AllocError>
        requires { IsTidy self.old }
        ensures { OnOk result (self.new ≡ parts (walk levels) word (view value.now) self.old) }
    {
        match word {
            NodeWord::Leaf(leaf) => {
                let reading = leaf_node(alloc, leaf, value)?;
                self.take(reading)
            }
            NodeWord::Adaptor(adaptor) => self.adaptor(alloc, adaptor, value, levels),
            NodeWord::Let(binding) => self.binding(alloc, binding, value, levels),
            NodeWord::Bulk => self.bulk(alloc, value, levels),
            NodeWord::WhenAll => self.when_all(alloc, value, levels),
            NodeWord::Ahead => self.ahead(alloc, value, levels),
        }
    }

    /// The same of a node over one child.
    #[cycle(walk)]
    #[tactic(auto, unfolding(crate::specs::Walked::parts))]
    fn adaptor(
        &mut self,
        alloc: Global,
        adaptor: Adaptor,
        value: &Value,
        levels: u32,
    ) -> Result<(), AllocError>
        requires { IsTidy self.old }
        ensures { OnOk result (self.new ≡
            parts (walk levels) (NodeWord.Adaptor adaptor) (view value.now) self.old) }
    {
        self.child(alloc, value, "child", levels)?;
        let reading = adaptor_node(alloc, adaptor, value, self.last())?;
        self.take(reading)
    }

    /// The same of a node over one child and bodies.
    #[cycle(walk)]
    #[tactic(auto, unfolding(crate::specs::Walked::parts))]
    fn binding(
        &mut self,
        alloc: Global,
        binding: Let,
        value: &Value,
        levels: u32,
    ) -> Result<(), AllocError>
        requires { IsTidy self.old }
        ensures { OnOk result
            (self.new ≡ parts (walk levels) (NodeWord.Let binding) (view value.now) self.old) }
    {
        self.child(alloc, value, "child", levels)?;
        let child = self.last();
        let numbers = self.list(alloc, value, "bodies", levels)?;
        let bodies = NodeList::from_vec(numbers);
        let reading = let_node(alloc, binding, value, child, bodies)?;
        self.take(reading)
    }

    /// The same of a bulk.
    #[cycle(walk)]
    #[tactic(auto, unfolding(crate::specs::Walked::parts))]
    fn bulk(&mut self, alloc: Global, value: &Value, levels: u32) -> Result<(), AllocError>
        requires { IsTidy self.old }
        ensures { OnOk result
            (self.new ≡ parts (walk levels) NodeWord.Bulk (view value.now) self.old) }
    {
        self.child(alloc, value, "child", levels)?;
        let child = self.last();
        let reading = job_at(alloc, value, "job")?;
        self.take_bulk(child, reading)
    }

    /// The same of a `when_all`.
    #[cycle(walk)]
    #[tactic(auto, unfolding(crate::specs::Walked::parts))]
    fn when_all(&mut self, alloc: Global, value: &Value, levels: u32) -> Result<(), AllocError>
        requires { IsTidy self.old }
        ensures { OnOk result
            (self.new ≡ parts (walk levels) NodeWord.WhenAll (view value.now) self.old) }
    {
        let numbers = self.list(alloc, value, "children", levels)?;
        let children = NodeList::from_vec(numbers);
        self.make(Node::WhenAll { children })
    }

    /// The same of an `ahead`.
    #[cycle(walk)]
    #[tactic(auto, unfolding(crate::specs::Walked::parts))]
    fn ahead(&mut self, alloc: Global, value: &Value, levels: u32) -> Result<(), AllocError>
        requires { IsTidy self.old }
        ensures { OnOk result
            (self.new ≡ parts (walk levels) NodeWord.Ahead (view value.now) self.old) }
    {
        self.child(alloc, value, "first", levels)?;
        let first = self.last();
        self.child(alloc, value, "second", levels)?;
        let second = self.last();
        self.make(Node::Ahead { first, second })
    }

    /// The same over the node at a key.
    #[cycle(walk)]
    #[tactic(auto, unfolding(crate::specs::Walked::child_at))]
    pub(crate) fn child(
        &mut self,
        alloc: Global,
        value: &Value,
        key: &str,
        levels: u32,
    ) -> Result<(), AllocError>
        requires { IsTidy self.old }
        ensures { OnOk result
            (self.new ≡ child_at (walk levels) key.now (view value.now) self.old) }
    {
        match value.get(key) {
            Some(child) => self.node(alloc, child, levels),
            None => {
                self.blame(FORM_FAULT);
                Ok(())
            }
        }
    }

    /// The same over the nodes in the array at a key, whose numbers it answers.
    #[cycle(walk)]
    #[tactic(auto, unfolding(crate::specs::Walked::list_at))]
    fn list(
        &mut self,
        alloc: Global,
        value: &Value,
        key: &str,
        levels: u32,
    ) -> Result<Vec<NodeId>, AllocError>
        requires { IsTidy self.old }
        ensures walked { OnOk result
            (self.new ≡ (list_at (walk levels) key.now (view value.now) self.old).walked) }
        ensures numbers { IfOk result (λ numbers. numbers.items
            ≡ (list_at (walk levels) key.now (view value.now) self.old).numbers) }
    {
        match value.get(key).and_then(Value::as_array) {
            Some(values) => self.each(alloc, values, levels),
            None => {
                self.blame(FORM_FAULT);
                Ok(Vec::new(alloc))
            }
        }
    }

    /// The same over these nodes.
    #[cycle(walk)]
    fn each(
        &mut self,
        alloc: Global,
        values: &[Value],
        levels: u32,
    ) -> Result<Vec<NodeId>, AllocError>
        requires { IsTidy self.old }
        ensures walked { OnOk result (self.new ≡
            (each (walk levels) (items_view values.now) (none_listed self.old)).walked) }
        ensures numbers { IfOk result (λ numbers. numbers.items
            ≡ (each (walk levels) (items_view values.now) (none_listed self.old)).numbers) }
    {
        let mut numbers = Vec::new(alloc);
        'values: for value in values {
            self.node(alloc, value, levels)?;
            numbers.push(self.last())?;
        }
        Ok(numbers)
    }
}

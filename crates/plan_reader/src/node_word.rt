//! The names of the nodes.
ghost use Rattle.std.specs.Prelude.{◌≡◌, map};
ghost use Rattle.plan_reader.specs.NodeWords.{adaptor_named, adaptor_keys, early_node_named, later_node_named, leaf_keys, leaf_named, let_named, node_keys, node_named, other_node_named};

use plan_parts::named;

/// A node without children.
#[derive(Clone, Copy)]
pub enum Leaf {
    Input,
    Just,
    JustError,
    JustStopped,
    Schedule,
    Delay,
    ReadEnv,
}

/// A node over one child. `Unstoppable` is of version 2.
#[derive(Clone, Copy)]
pub enum Adaptor {
    Then,
    UponError,
    UponStopped,
    StartsOn,
    ContinuesOn,
    StoppedAsOptional,
    StoppedAsError,
    Unstoppable,
}

/// A node over one child and bodies.
#[derive(Clone, Copy)]
pub enum Let {
    Value,
    Error,
    Stopped,
}

/// What a node of a file is called. `Ahead` is of version 2.
#[derive(Clone, Copy)]
pub enum NodeWord {
    Leaf(Leaf),
    Adaptor(Adaptor),
    Let(Let),
    Bulk,
    WhenAll,
    Ahead,
}

/// The node of this name, in a plan of version 1 or a later one.
pub fn node_named(is_first: bool, name: &str) -> Option<NodeWord>
    ensures { result ≡ node_named is_first name.now }
{
    match early_node_named(name) {
        Some(word) => Some(word),
        None => later_node_named(is_first, name),
    }
}

/// Of those that version 1 has.
fn early_node_named(name: &str) -> Option<NodeWord>
    ensures { result ≡ early_node_named name.now }
{
    if let Some(leaf) = leaf_named(name) {
        return Some(NodeWord::Leaf(leaf));
    }
    if let Some(adaptor) = adaptor_named(name) {
        return Some(NodeWord::Adaptor(adaptor));
    }
    if let Some(binding) = let_named(name) {
        return Some(NodeWord::Let(binding));
    }
    other_node_named(name)
}

/// Of those that version 1 hasn't.
fn later_node_named(is_first: bool, name: &str) -> Option<NodeWord>
    ensures { result ≡ later_node_named is_first name.now }
{
    if is_first {
        None
    } else {
        named(
            &[
                ("unstoppable", NodeWord::Adaptor(Adaptor::Unstoppable)),
                ("ahead", NodeWord::Ahead),
            ],
            name,
        )
    }
}

/// Of those without children.
fn leaf_named(name: &str) -> Option<Leaf>
    ensures { result ≡ leaf_named name.now }
{
    named(
        &[
            ("input", Leaf::Input),
            ("just", Leaf::Just),
            ("just_error", Leaf::JustError),
            ("just_stopped", Leaf::JustStopped),
            ("schedule", Leaf::Schedule),
            ("delay", Leaf::Delay),
            ("read_env", Leaf::ReadEnv),
        ],
        name,
    )
}

/// Of those over one child.
fn adaptor_named(name: &str) -> Option<Adaptor>
    ensures { result ≡ adaptor_named name.now }
{
    named(
        &[
            ("then", Adaptor::Then),
            ("upon_error", Adaptor::UponError),
            ("upon_stopped", Adaptor::UponStopped),
            ("starts_on", Adaptor::StartsOn),
            ("continues_on", Adaptor::ContinuesOn),
            ("stopped_as_optional", Adaptor::StoppedAsOptional),
            ("stopped_as_error", Adaptor::StoppedAsError),
        ],
        name,
    )
}

/// Of those over one child and bodies.
fn let_named(name: &str) -> Option<Let>
    ensures { result ≡ let_named name.now }
{
    named(
        &[
            ("let_value", Let::Value),
            ("let_error", Let::Error),
            ("let_stopped", Let::Stopped),
        ],
        name,
    )
}

/// Of the others.
fn other_node_named(name: &str) -> Option<NodeWord>
    ensures { result ≡ other_node_named name.now }
{
    named(
        &[("bulk", NodeWord::Bulk), ("when_all", NodeWord::WhenAll)],
        name,
    )
}

/// The keys that a node has.
pub fn node_keys(word: NodeWord) -> &'static [&'static str]
    ensures { map (λ key. key.now) result.now ≡ node_keys word }
{
    match word {
        NodeWord::Leaf(leaf) => leaf_keys(leaf),
        NodeWord::Adaptor(adaptor) => adaptor_keys(adaptor),
        NodeWord::Let(_) => &["bodies", "child", "do", "pick"],
        NodeWord::Bulk => &["child", "do", "job"],
        NodeWord::WhenAll => &["children", "do"],
        NodeWord::Ahead => &["do", "first", "second"],
    }
}

/// The keys that a node without children has.
fn leaf_keys(leaf: Leaf) -> &'static [&'static str]
    ensures { map (λ key. key.now) result.now ≡ leaf_keys leaf }
{
    match leaf {
        Leaf::Input | Leaf::JustStopped => &["do"],
        Leaf::Just => &["do", "values"],
        Leaf::JustError => &["do", "error"],
        Leaf::Schedule => &["do", "on"],
        Leaf::Delay => &["do", "turns"],
        Leaf::ReadEnv => &["do", "query"],
    }
}

/// The keys that a node over one child has.
fn adaptor_keys(adaptor: Adaptor) -> &'static [&'static str]
    ensures { map (λ key. key.now) result.now ≡ adaptor_keys adaptor }
{
    match adaptor {
        Adaptor::Then | Adaptor::UponError | Adaptor::UponStopped => &["child", "do", "job"],
        Adaptor::StartsOn | Adaptor::ContinuesOn => &["child", "do", "on"],
        Adaptor::StoppedAsOptional => &["child", "do", "of"],
        Adaptor::StoppedAsError => &["child", "do", "error"],
        Adaptor::Unstoppable => &["child", "do"],
    }
}

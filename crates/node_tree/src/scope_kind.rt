//! The two kinds of counting scopes (P3149, [exec.scope]).

/// Whether a scope has a stop source whose token reaches the operations spawned in it.
#[derive(Clone, Copy, Debug, PartialEq, Eq)]
pub enum ScopeKind {
    /// `simple_counting_scope`: it has none.
    Simple,
    /// `counting_scope`: it has one.
    Counting,
}

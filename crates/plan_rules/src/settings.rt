//! What a plan says beside its nodes.
ghost use Rattle.std.specs.Prelude.{◌≡◌};

use exec_value::Kind;
use node_tree::ScopeKind;

/// The settings of a plan.
#[derive(Clone, Copy, Debug)]
pub struct Settings {
    /// The version of the plan language, 1 or 2.
    pub version: u32,
    /// The kind of the records: `Int`, `Text` or `Row`.
    pub input: Kind,
    /// The kind of the scope that the operations run in.
    pub scope: ScopeKind,
    /// After how many records a stop is requested, 1 to 1,000,000.
    pub stop_after: Option<u32>,
    /// Whether a stop is requested after the first line that is an error.
    pub on_error_stop: bool,
}

impl Settings {
    ghost use Rattle.plan_rules.specs.Exclusion.{exclude_each_other};

    /// Whether these settings exclude each other: a rule requests a stop of a simple scope, which
    /// takes no stop request.
    pub fn exclude_each_other(&self) -> bool
        ensures { result ≡ exclude_each_other self.now }
    {
        match self.scope {
            ScopeKind::Simple => self.stop_after.is_some() || self.on_error_stop,
            ScopeKind::Counting => false,
        }
    }
}

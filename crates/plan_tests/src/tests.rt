//! The tests, by what they use, and the settings that they share.
mod building;
mod calls;
mod examples;
mod reading;
mod runs;
mod signatures;
mod writing;

use exec_value::Kind;
use node_tree::ScopeKind;
use plan_builder::{Built, Plan, PlanBuilder};
use plan_rules::Settings;

/// Int records, and no stop.
const OF_INTS: Settings = Settings {
    version: 2,
    input: Kind::Int,
    scope: ScopeKind::Counting,
    stop_after: None,
    on_error_stop: false,
};

/// The same of the first version.
const OF_VERSION_1: Settings = Settings {
    version: 1,
    input: Kind::Int,
    scope: ScopeKind::Counting,
    stop_after: None,
    on_error_stop: false,
};

/// The plan of ints that was built, with this root, where there is one.
fn finished(builder: PlanBuilder, root: Built) -> Option<Plan> {
    match root {
        Ok(root) => builder.finish(root, OF_INTS).ok(),
        Err(_) => {
            drop(builder);
            None
        }
    }
}

/// The same of the first version.
fn finished_in_1(builder: PlanBuilder, root: Built) -> Option<Plan> {
    match root {
        Ok(root) => builder.finish(root, OF_VERSION_1).ok(),
        Err(_) => {
            drop(builder);
            None
        }
    }
}

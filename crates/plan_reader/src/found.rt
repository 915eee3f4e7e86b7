//! A plan that was read, before its kinds are checked.
use plan_shape::Plan;

/// A plan, and whether the job of each bulk is an element job. Where one isn't, another stands in
/// for it in the plan.
#[derive(Drop)]
pub struct Found {
    pub plan: Plan,
    pub elements: bool,
}

//! What holds of kinds: for every job, list of nodes, arguments and stop state, and in every plan.
ghost use Rattle.plan_kinds.specs.Laws.{JobsKeepKinds, SignedByCase, KindsKept};
ghost use Rattle.plan_kinds.specs.PlanLaws.{PlansAreBuilt, NodesRunUnderOneShape};
ghost use Rattle.plan_kinds.specs.TreeLaws.{TreesShowPlans};

/// For data of kinds that it takes, a job gives data of the kinds that are said of it, or an error
/// where it may fail.
pub fn jobs_keep_kinds()
    ensures { JobsKeepKinds }
{}

/// In a list whose nodes stand behind their children, a node's signature is that of its case.
pub fn signed_by_case()
    ensures { SignedByCase }
{}

/// Kinds are kept: where those of a plan match, a node that runs with arguments of the shape that
/// it runs under completes as its signature says, whatever the stop state.
pub fn kinds_kept()
    ensures { KindsKept }
{}

/// The nodes of a plan are as these laws ask, so that kinds are kept where they match.
pub fn plans_are_built()
    ensures { PlansAreBuilt }
{}

/// Each node of a plan runs under arguments of exactly one shape, so it has exactly one signature.
pub fn nodes_run_under_one_shape()
    ensures { NodesRunUnderOneShape }
{}

/// The tree of a plan shows its nodes: which have a stop source, which are unstoppable, which are
/// whose children, and which stand below the receiver node.
pub fn trees_show_plans()
    ensures { TreesShowPlans }
{}

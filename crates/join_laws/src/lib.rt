//! That lines which are lawful for the parts of a stream are lawful for the stream.
//!
//! `plans_may_be_cut` says of which plans a stream may be cut into parts. For these
//! `lawful_parts_join` is the law of parts that follow each other, and `lawful_dealt_parts_join`
//! that of parts to which records were dealt in turn. `runs_join` and `dealt_runs_join` say it of
//! what exec_join writes. It stands on line_rules, which says which lines are lawful, on
//! record_loop, whose runs write them, on part_lines, which says what parts hold of a stream, and
//! on join_commands. The crate has no code.
#![tactic(auto)]

ghost use Rattle.std.specs.Prelude.{ℕ};
ghost use Rattle.join_laws.specs.Joined.{DealtPartsJoin, MayBeCut, PartsJoin, RequestsNothing};
ghost use Rattle.join_laws.specs.Runs.{DealtRunsJoin, RunsJoin};
ghost use Rattle.plan_shape.specs.Blueprint.{Blueprint};
ghost use Rattle.line_rules.specs.PlanTerms.{terms_of};

use record_loop::Operations;

/// A stream may be cut into parts for a plan without stop rules that doesn't ask for the record's
/// number: what it allows a record doesn't depend on that. The call does nothing. Its contract is
/// the law.
pub fn plans_may_be_cut()
    ensures { (plan : Blueprint) → RequestsNothing plan → MayBeCut plan }
{}

/// Where a plan requests no stop, and what it allows a record doesn't depend on its number, lines
/// that are lawful for each part are lawful for the stream, one part after another. The call does
/// nothing. Its contract is the law.
pub fn lawful_parts_join<O: Operations>()
    ensures { (plan : Blueprint) (window : ℕ) → MayBeCut plan
        → PartsJoin (terms_of O.WantsMemory plan window) }
{}

/// The same, where the records were dealt to parts in turn, and the lines are taken from them so.
pub fn lawful_dealt_parts_join<O: Operations>()
    ensures { (plan : Blueprint) (window : ℕ) → MayBeCut plan
        → DealtPartsJoin (terms_of O.WantsMemory plan window) }
{}

/// What is joined of whole parts that follow each other is what one run over their records may
/// write, where each part's file is the text of lines that are lawful for its records. The call
/// does nothing. Its contract is the law.
pub fn runs_join<O: Operations>()
    ensures { (plan : Blueprint) (window : ℕ) → MayBeCut plan
        → RunsJoin (terms_of O.WantsMemory plan window) }
{}

/// The same of parts to which the records of a stream were dealt in turn.
pub fn dealt_runs_join<O: Operations>()
    ensures { (plan : Blueprint) (window : ℕ) → MayBeCut plan
        → DealtRunsJoin (terms_of O.WantsMemory plan window) }
{}

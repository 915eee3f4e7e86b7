//! What all steps of the running table share: the lemmas on its words, homes, slots, views and
//! traces, by which each kind of step is shown to keep the rule `Running`.
//!
//! It stands on table_rules, which has the rule, and on table_steps, which says what a step does.
//! It keeps one promise: what a step leaves alone is as it was before. The kinds of steps are in
//! table_life_kept, table_stop_kept and table_scope_kept, and what hands are told as they come and
//! go in table_hands_kept. These four stand on it, and none of them on another (docs/TABLE.md).
#![tactic(auto)]

//! Each step on the counting scope's word keeps the rule of the running table.
//!
//! It stands on table_kept, which has what all steps share, and on scope_kept, the pure machine's
//! law. It keeps one promise: where the rule `Running` holds, it holds after the scope is entered,
//! marked used, left, closed, joined or sealed. op_table's answers cite it.
#![tactic(auto)]

//! Each step on a stop source or a stop callback keeps the rule of the running table.
//!
//! It stands on table_kept, which has what all steps share, and on stop_kept, the pure machine's
//! law. It keeps one promise: where the rule `Running` holds, it holds after a registration, a
//! look, a request, a run or its end, a removal, and after each step of a scan. A folder of proofs/
//! is a kind. op_table's answers cite them.
#![tactic(auto)]

//! Tests of the running table, over all of its crates: table_words, name_set, op_table, op_slot,
//! stop_calls, table_use and count_scope.
//!
//! They run what the contracts say of one hand, and what no contract says: hands in threads of
//! their own. They stand in one crate, since a crate that has tests is proved twice.
#![tactic(auto)]

#[cfg(test)]
mod tests;

//! What is kept of the running table's hands: as it's opened, as they are split off and joined,
//! after each step, and as it's closed.
//!
//! It stands on table_kept, which has what all steps share. It keeps one promise: each hand is one
//! of the table's, and what its list says was done is what was done. So a table that was just
//! opened keeps the rule `Running`, and the hands that closed one tell what its words say.
#![tactic(auto)]

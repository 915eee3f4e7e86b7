//! Each step of an operation's life keeps the rule of the running table.
//!
//! It stands on table_kept, which has what all steps share, and on life_kept and scope_kept, the
//! pure machine's laws. It keeps one promise: where the rule `Running` holds, it holds after a
//! claim, a begin, an await, a rest, a take, a finish, a report, a rouse, a turn or a release. For
//! each kind it says what `atomic_table` asks of the step (`Allowed`), and what the step tells
//! (`Told`). A folder of proofs/ is a kind. op_table's answers cite them.
#![tactic(auto)]

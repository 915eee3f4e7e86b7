//! Counting scopes: who may start work in a scope, and when all of it has ended (P3149,
//! [exec.counting.scopes]).
//!
//! It makes op_table's steps on the scope's word. For a stop request it stands on stop_calls, which
//! hands the table on, and on table_laws, from which it follows what stays so after a call and
//! which steps it lists. An association is a place in the scope's count, which its holder must give
//! back. It keeps one promise: where the join of a scope was started, whoever leaves last seals it,
//! and a sealed scope is joined for good.
//!
//!     associate --> Association --> disassociate
//!     close .. start_join --> Waiting .. the last disassociate seals --> is_joined
//!                         --> Joined
//!
//! No call takes memory or a lock, and none waits. docs/SCOPE.md shows the protocol and its races.
#![tactic(auto)]

mod joining;
mod laws;
mod looks;
mod members;
mod requesting;
mod seals;

pub use joining::{JoinStart, close, start_join};
pub use laws::{scope_calls_list_their_steps, scopes_stay_so};
pub use life_rules::{Refused, ScopeState};
pub use looks::{is_joined, state};
pub use members::{Association, associate, disassociate};
pub use node_tree::ScopeKind;
pub use requesting::request_scope;
pub use stop_calls::{Cargo, Hand, OpTable, Request};

//! How a stop is requested of all that is associated (P3149, `request_stop` of a
//! `counting_scope`).
ghost use Rattle.std.specs.Prelude.{false};
ghost use Rattle.life_rules.specs.declared.event.SourceRef.TheVariants.{Scope};
ghost use Rattle.table_steps.specs.Requests.{MayRequest};
ghost use Rattle.table_steps.specs.Views.{IsHandOf, Stays, knows};
ghost use Rattle.stop_calls.specs.Requests.{IsRequested};

use life_rules::SourceRef;
use stop_calls::{Cargo, Hand, OpTable, Request, request_stop};

/// Requests a stop on the scope's source. Already exactly where the word that was read says that
/// one was requested before; else this hand goes through the source's callbacks by the scan.
///
/// Step: one fetch_or of the source's word, which sets the requested bit.
/// Needs: this is hand 0, and the scope is a counting one: a simple scope has no source. Another
/// hand may request again, once it has seen the request.
/// Afterwards: the request is seen. A repeated one answers Already.
pub fn request_scope<P: Cargo>(table: &OpTable<P>, hand: &mut Hand<P>) -> Request
    requires table { IsHandOf table.now hand.old }
    requires needs { MayRequest P.Cargo table.now.frame (knows hand.old) Scope false }
    ensures stays { Stays table.now hand.old hand.new }
    ensures requested { IsRequested table.now Scope result hand.old hand.new }
{
    request_stop(table, hand, SourceRef::Scope)
}

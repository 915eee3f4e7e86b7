//! How a stop is requested ([stopsource.inplace.mem], `request_stop`).
ghost use Rattle.std.specs.Prelude.{true, false};
ghost use Rattle.life_rules.specs.declared.event.SourceRef.TheVariants.{Node};
ghost use Rattle.table_steps.specs.Views.{IsHandOf, Stays};
ghost use Rattle.table_steps.specs.Sights.{IsSourceIn};
ghost use Rattle.table_steps.specs.Requests.{MayRequest};
ghost use Rattle.stop_calls.specs.Requests.{is_answer, IsRequested, IsFailed};

use crate::scanning::Scan;
use life_rules::{Bits, Name, SourceRef};
use op_slot::{Cargo, Hand, OpTable};

/// What a request found.
#[must_use]
pub enum Request {
    /// This call made the request: its hand goes through the source's callbacks.
    Made(Scan),
    /// A stop was requested before.
    Already,
}

/// What the request of a failure found.
#[must_use]
pub struct Failure {
    /// No failure of another child was told before: the first one decides.
    pub first: bool,
    pub request: Request,
}

// The answer to a request that read these bits.
fn answer(source: SourceRef, read: Bits) -> Request
    ensures { is_answer source read.requested result }
{
    if read.requested {
        Request::Already
    } else {
        Request::Made(Scan::from_first(source))
    }
}

/// Requests a stop on the source. Already exactly where the word that was read says that one was
/// requested before; else this hand goes through the source's callbacks by the scan.
///
/// Step: one fetch_or of the source's word, which sets the requested bit. An exchange could lose
/// against a scan that is sealed, and had to be tried again.
/// Needs: of the scope's source: this is hand 0, and the scope has a source. Of a node's: the hand
/// runs the node's own callback, or holds the node before its children begin and has seen the
/// request above it. Again: a hand that has seen the request on a source that can't go away under
/// it. Afterwards: the request is seen. A repeated one answers Already.
pub fn request_stop<P: Cargo>(table: &OpTable<P>, hand: &mut Hand<P>, source: SourceRef) -> Request
    requires table { IsHandOf table.now hand.old }
    requires source { IsSourceIn table.now source }
    requires needs { MayRequest P.Cargo table.now.frame hand.old.me.0 source false }
    ensures stays { Stays table.now hand.old hand.new }
    ensures requested { IsRequested table.now source result hand.old hand.new }
{
    let read = table.request_step(hand, source, false);
    answer(source, read)
}

/// Marks the node's source as failed and requests a stop on it, in one step. `first` exactly where
/// the word that was read says that no child had failed before.
///
/// Step: one fetch_or of the source's word, which sets the failed and the requested bit. Two steps
/// would let another hand see a request whose cause isn't told yet.
/// Needs: the node has a source, and the hand owes the report of a child of the node that failed
/// without having seen a request.
/// Afterwards: the request is seen.
pub fn fail_stop<P: Cargo>(table: &OpTable<P>, hand: &mut Hand<P>, node: Name) -> Failure
    requires table { IsHandOf table.now hand.old }
    requires source { IsSourceIn table.now (Node node) }
    requires needs { MayRequest P.Cargo table.now.frame hand.old.me.0 (Node node) true }
    ensures stays { Stays table.now hand.old hand.new }
    ensures failed { IsFailed table.now node result hand.old hand.new }
{
    let source = SourceRef::Node(node);
    let read = table.request_step(hand, source, true);
    Failure {
        first: !read.failed,
        request: answer(source, read),
    }
}

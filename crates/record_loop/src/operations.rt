//! The seam: what the loop over records asks of the layer that runs operations.
ghost use Rattle.std.specs.Prelude.{◌≡◌, IfOk, IfErr, MatchOption, IsSome};
ghost use Rattle.std.specs.Thread.{IsSync};
ghost use Rattle.exec_value.specs.Kinds.{HasKind};
ghost use Rattle.node_tree.specs.declared.scope_kind.ScopeKind.{ScopeKind};
ghost use Rattle.plan_shape.specs.Blueprint.{Blueprint};
ghost use Rattle.record_loop.specs.Works.{Work, KeepsWork, BeginsTicket, Requests, CollectsTicket};

use exec_value::{Completion, Datum};
use std::alloc::Global;
use std::sync::Wait;

/// The operations of a plan's records, each of which has a ticket of its own while it runs.
///
///     record --start--> a ticket --turn, turn ..--> complete --collect--> its completion
///
/// A record is started as one of which a stop was asked where `request` was called before.
pub trait Operations {
    /// The plan, the table on which operations run, the operation that each ticket has, how many
    /// run, whether a stop was requested, and what was collected.
    ghost state: { Self → Work };

    /// Whether an operation of a plan of int records may want memory.
    ghost WantsMemory: { Blueprint → Type 0 };

    /// Starts the operation of the record of this number and datum, and gives its ticket. `Err`
    /// hands the datum back: there was no room, and a turn may make some.
    fn start<R: Wait + Sync>(
        &mut self,
        rt: &R,
        alloc: Global,
        number: u32,
        datum: Datum,
    ) -> Result<u32, Datum>
        requires sync { IsSync R.row }
        requires kind { HasKind datum (state self.old).plan.settings.input }
        ensures started { IfOk result (λ ticket.
            BeginsTicket (state self.old) (state self.new) number datum ticket) }
        ensures refused { IfErr result (λ back.
            (back ≡ datum) × KeepsWork (state self.old) (state self.new)) };

    /// Lets the operations go on by one turn.
    fn turn<R: Wait + Sync>(&mut self, rt: &R, alloc: Global)
        requires sync { IsSync R.row }
        ensures { KeepsWork (state self.old) (state self.new) };

    /// The completion of the operation of a ticket, where it is complete. The ticket has none then,
    /// and the completion stands among what was collected.
    fn collect<R: Wait + Sync>(&mut self, rt: &R, ticket: u32) -> Option<Completion>
        requires sync { IsSync R.row }
        requires begun { IsSome ((state self.old).tickets ticket) }
        ensures { MatchOption result (KeepsWork (state self.old) (state self.new))
            (CollectsTicket WantsMemory (state self.old) (state self.new) ticket) };

    /// Requests a stop of all operations, those to come included ([stopsource]).
    fn request<R: Wait + Sync>(&mut self, rt: &R)
        requires sync { IsSync R.row }
        requires counting { (state self.old).plan.settings.scope ≡ ScopeKind.Counting }
        ensures { Requests (state self.old) (state self.new) };
}

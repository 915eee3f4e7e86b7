//! What is a move: each call by what it asks and tells.
ghost use Rattle.table_moves.specs.Moves.{LoadsMoveNothing, BeginsByMove, TakesByMove, RestsByMove, AwaitsByMove, FinishesByMove, ReportsByMove, RousesByMove};
ghost use Rattle.table_moves.specs.CallbackMoves.{ArmsByMove, EndsRunByMove, WithdrawsByMove, WithdrawsOwnByMove};
ghost use Rattle.table_moves.specs.BlockMoves.{ClaimsByMove, ReleasesByMove};
ghost use Rattle.table_moves.specs.ScanMoves.{RunsByMove, PassesByMove, SkipsByMove};
ghost use Rattle.table_moves.specs.SourceMoves.{LooksByMove, RequestsByMove, SealsScanByMove};
ghost use Rattle.table_moves.specs.ScopeMoves.{EntersByMove, MakesByMove, LeavesByMove, ClosesByMove, JoinsByMove, SealsByMove};

use table_rules::Cargo;

/// A step of a call is one move of the step relation: the state that the words and views show
/// before it lets the hand make the move, and the state that they show after it is the one that the
/// move gives. A load moves nothing.
pub fn steps_are_moves<P: Cargo>()
    ensures loads { LoadsMoveNothing P.Cargo }
    ensures begins { BeginsByMove P.Cargo }
    ensures takes { TakesByMove P.Cargo }
    ensures rests { RestsByMove P.Cargo }
    ensures awaits { AwaitsByMove P.Cargo }
    ensures finishes { FinishesByMove P.Cargo }
    ensures reports { ReportsByMove P.Cargo }
    ensures rouses { RousesByMove P.Cargo }
{}

/// So is a step by which a callback is registered, one by which its run ends, and one by which it
/// is removed, from outside its run or from inside. One that would remove a callback that runs or
/// ran tells its hand of the request.
pub fn callback_steps_are_moves<P: Cargo>()
    ensures arms { ArmsByMove P.Cargo }
    ensures ends { EndsRunByMove P.Cargo }
    ensures withdraws { WithdrawsByMove P.Cargo }
    ensures withdraws_own { WithdrawsOwnByMove P.Cargo }
{}

/// So are the steps of a scan: one that runs a callback, those that pass a place or a free block,
/// and the one that seals it.
pub fn scan_steps_are_moves<P: Cargo>()
    ensures runs { RunsByMove P.Cargo }
    ensures passes { PassesByMove P.Cargo }
    ensures skips { SkipsByMove P.Cargo }
    ensures seals { SealsScanByMove P.Cargo }
{}

/// So is a request of a stop, and a look whether one is requested; but a look at a source whose
/// block was given back since moves nothing.
pub fn source_steps_are_moves<P: Cargo>()
    ensures requests { RequestsByMove P.Cargo }
    ensures looks { LooksByMove P.Cargo }
{}

/// So are the exchange by which a block is claimed and the step by which it is given back.
pub fn block_steps_are_moves<P: Cargo>()
    ensures claims { ClaimsByMove P.Cargo }
    ensures releases { ReleasesByMove P.Cargo }
{}

/// So is each step on the counting scope's word.
pub fn scope_steps_are_moves<P: Cargo>()
    ensures enters { EntersByMove P.Cargo }
    ensures makes { MakesByMove P.Cargo }
    ensures leaves { LeavesByMove P.Cargo }
    ensures closes { ClosesByMove P.Cargo }
    ensures joins { JoinsByMove P.Cargo }
    ensures seals { SealsByMove P.Cargo }
{}

//! How the failure is told, and the leaf reported.
ghost use Rattle.std.specs.Prelude.{◌≡◌, [], IfOk, IfErr};
ghost use Rattle.life_rules.specs.Views.{beside};
ghost use Rattle.table_steps.specs.Views.{IsHandOf};
ghost use Rattle.table_use.specs.Uses.{use_tree, IsRoot, IsIdle, LeafFailed};
ghost use Rattle.table_use.specs.Causes.{GoesOn, IsStopCause, IsCause};

use crate::cargo::Env;
use crate::growing::starts;
use crate::node::{Fault, Table, Worker, beside};
use crate::passing::scans;
use life_rules::Name;
use stop_calls::{Failure, Request, fail_stop};
use table_steps::Report;

/// What happened to an operation whose leaf failed.
#[derive(Clone, Copy, Debug, PartialEq, Eq)]
pub struct Heard {
    /// The root of the operation.
    pub root: Name,
    /// No failure of another child was told before.
    pub first: bool,
    /// The place that the scan of the root's source ran first, and that of the branch's.
    pub ran: (Name, Name),
}

// Tells the root that its leaf failed, and runs the callbacks that hear it.
fn tells(table: &Table, hand: &mut Worker, root: Name) -> Result<Heard, Fault>
    requires table { IsHandOf table.now hand.old }
    requires root { IsRoot table.now root }
    requires idle { IsIdle hand.old.me }
    requires failed { LeafFailed root hand.old.me }
    ensures table { IsHandOf table.now hand.new }
    ensures idle { IsIdle hand.new.me }
    ensures failed { LeafFailed root hand.new.me }
    ensures root { IfOk result (λ r. r.root ≡ root) }
    ensures branch { IfOk result (λ r. r.ran.0 ≡ beside root 2) }
    ensures twig { IfOk result (λ r. r.ran.1 ≡ beside root 1) }
    ensures steps { IfOk result (λ _. GoesOn hand.old.me hand.new.me) }
    ensures fault { IfErr result (IsStopCause table.now hand.old.me hand.new.me root) }
{
    let Failure { first, request } = fail_stop(table, hand, root);
    match request {
        Request::Already => Err(Fault::Asked),
        Request::Made(scan) => {
            let ran = scans(table, hand, root, scan)?;
            Ok(Heard { root, first, ran })
        }
    }
}

/// Takes one operation from its claim to the report of its failed leaf. The callbacks that ran are
/// those of the branch and, from inside it, of the twig. However it ends, the hand makes no scan
/// and runs no callback afterwards. A fault rests on what the hand read in this call.
pub fn fails(table: &Table, hand: &mut Worker, step: u32, number: u32) -> Result<Heard, Fault>
    requires table { IsHandOf table.now hand.old }
    requires tree { table.now.frame.tree ≡ use_tree }
    requires step { step ≡ table.now.frame.over.value }
    requires idle { IsIdle hand.old.me }
    ensures table { IsHandOf table.now hand.new }
    ensures idle { IsIdle hand.new.me }
    ensures root { IfOk result (λ r. IsRoot table.now r.root) }
    ensures branch { IfOk result (λ r. r.ran.0 ≡ beside r.root 2) }
    ensures twig { IfOk result (λ r. r.ran.1 ≡ beside r.root 1) }
    ensures fault { IfErr result (IsCause table.now hand.old hand.new) }
{
    let env = Env {
        node: 3,
        number,
        step,
    };
    let root = starts(table, hand, env)?;
    let answer = tells(table, hand, root)?;
    match table.report(hand, beside(root, 0)) {
        Report::Others => Ok(answer),
        Report::Last => Err(Fault::Order),
    }
}

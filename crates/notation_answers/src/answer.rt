//! What is answered of a text.
ghost use Rattle.std.specs.Prelude.{◌≡◌, ◌≢◌, false, IfOk, IfErr};
ghost use Rattle.plan_reader.specs.PlanFile.{IsFaultOf, IsPlanOf};
ghost use Rattle.notation_answers.specs.Answers.{IsAnswerOf};
ghost use Rattle.notation_answers.specs.Plans.{IsFaultIn, IsPlanIn, IsRefusedAs};

use crate::path::spot_of;
use crate::sentence::{at_place, refusal_sentence};
use plan_notation::{Fault, Read, Refusal, read_text};
use plan_places::{Refusal as PlanRefusal, refusal_of};
use plan_reader::{PlanFault, read_plan};
use plan_shape::Plan;
use plan_writer::write_plan;
use std::alloc::{AllocError, Global};

/// What is answered of a text in the notation.
#[derive(Drop)]
pub struct Written {
    /// Whether the text is a plan.
    pub is_plan: bool,
    /// The plan as JSON, its canonical text, in one line; else the sentence that says where and why
    /// the text is refused. A line feed ends both.
    pub text: Vec<u8>,
}

/// Why a text isn't a plan.
#[derive(Drop)]
pub enum NotationFault {
    /// The text isn't one of the notation: the first token that is refused.
    Text(Refusal),
    /// The plan that it says is refused: why, and how many bytes stand before the place.
    Plan(PlanRefusal, usize),
    /// There was no memory.
    NoMemory,
}

/// The plan of a text in the notation, or the first refusal.
pub fn read_notation(alloc: Global, text: &[u8]) -> Result<Plan, NotationFault>
    ensures ok { IfOk result (IsPlanIn text.now) }
    ensures err { IfErr result (IsFaultIn text.now) }
{
    match read_text(alloc, text) {
        Ok(read) => judged(alloc, &read),
        Err(Fault::Refused(refusal)) => Err(NotationFault::Text(refusal)),
        Err(Fault::NoMemory) => Err(NotationFault::NoMemory),
    }
}

/// The plan of what was read.
fn judged(alloc: Global, read: &Read) -> Result<Plan, NotationFault>
    ensures ok { IfOk result (IsPlanOf read.now.json) }
    ensures err { IfErr result (IsRefusedAs read.now) }
{
    match read_plan(alloc, &read.json) {
        Ok(plan) => Ok(plan),
        Err(PlanFault::NoMemory) => Err(NotationFault::NoMemory),
        Err(fault) => Err(told(alloc, read, fault)),
    }
}

/// What is told of this fault.
fn told(alloc: Global, read: &Read, fault: PlanFault) -> NotationFault
    requires cause { fault ≢ PlanFault.NoMemory }
    requires is { IsFaultOf read.now.json fault }
    ensures { IsRefusedAs read.now result }
{
    match refusal_of(alloc, &read.json, fault) {
        Ok(refusal) => {
            let at = spot_of(&refusal.place, read);
            NotationFault::Plan(refusal, at)
        }
        Err(AllocError) => NotationFault::NoMemory,
    }
}

/// What is answered of a text in the notation.
pub fn written_of(alloc: Global, text: &[u8]) -> Result<Written, AllocError>
    ensures { IfOk result (IsAnswerOf text.now) }
{
    match read_notation(alloc, text) {
        Ok(plan) => {
            let mut line = write_plan(alloc, &plan)?;
            line.push(b'\n')?;
            Ok(Written {
                is_plan: true,
                text: line,
            })
        }
        Err(NotationFault::Text(refusal)) => Ok(refused(refusal_sentence(alloc, text, refusal)?)),
        Err(NotationFault::Plan(refusal, at)) => {
            Ok(refused(at_place(alloc, text, at, refusal.reason.as_str())?))
        }
        Err(NotationFault::NoMemory) => Err(AllocError),
    }
}

/// The answer with this sentence.
fn refused(text: Vec<u8>) -> Written
    ensures { result ≡ record { is_plan = false; text = text } }
{
    Written {
        is_plan: false,
        text,
    }
}

//! What is answered of a file.
ghost use Rattle.std.specs.Prelude.{◌≡◌, ◌≤◌};
ghost use Rattle.picture_commands.specs.Answers.{status_of};
ghost use Rattle.trace_commands.specs.Answers.{Prints};

use exec_io::{Failed, Sink};
use exec_status::{Status, tell};

/// What is answered of a file: a picture, or why there is none; or what is said of a trace.
#[derive(Drop)]
pub struct Answer {
    /// Whether it is a picture, or each entry of the trace is a step.
    pub drawn: bool,
    pub text: Vec<u8>,
}

/// The status of an answer that was written.
fn status_of(drawn: bool) -> Status
    ensures { result ≡ status_of drawn }
{
    if drawn {
        Status::AllValues
    } else {
        Status::NotAllValues
    }
}

/// Writes an answer, and gives the status that stands then.
pub fn print_answer<K: Sink>(answer: &Answer, out: &mut K) -> Status
    ensures later { (K.told out.old).faults ≤ (K.told out.new).faults }
    ensures prints { Prints (status_of answer.now.drawn) answer.now.text.items
        (K.told out.old) (K.told out.new) result }
{
    match tell(&answer.text, out) {
        Ok(()) => status_of(answer.drawn),
        Err(Failed) => Status::WriteFault,
    }
}

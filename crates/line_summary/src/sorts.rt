//! Of which sort a line is.
ghost use Rattle.std.specs.Prelude.{◌≡◌, ◌*◌};
ghost use Rattle.exec_value.specs.Sum.{total, numbers_of, sum_of_data, IsWithin};
ghost use Rattle.outcome_lines.specs.Summary as of;
ghost use Rattle.exec_value.specs.declared.limits.TheConstants.{DATA, NUMBERS};
ghost use Rattle.exec_value.specs.declared.outcome.Outcome.{Outcome};

use exec_value::{Completion, Outcome, sum_data};

/// Whether a line is a value.
pub fn is_value(outcome: &Outcome) -> bool
    ensures { result ≡ of.is_value outcome.now }
{
    matches!(outcome, Outcome::Done(Completion::Value(_)))
}

/// Whether a line is an error.
pub fn is_error(outcome: &Outcome) -> bool
    ensures { result ≡ of.is_error outcome.now }
{
    matches!(outcome, Outcome::Done(Completion::Error(_)))
}

/// Whether a line is stopped.
pub fn is_stopped(outcome: &Outcome) -> bool
    ensures { result ≡ of.is_stopped outcome.now }
{
    matches!(outcome, Outcome::Done(Completion::Stopped))
}

/// Whether a line is out-of-memory.
pub fn is_out_of_memory(outcome: &Outcome) -> bool
    ensures { result ≡ of.is_out_of_memory outcome.now }
{
    matches!(outcome, Outcome::Done(Completion::NoMemory))
}

/// Whether a line is a bad record.
pub fn is_bad_record(outcome: &Outcome) -> bool
    ensures { result ≡ of.is_bad_record outcome.now }
{
    matches!(outcome, Outcome::BadRecord)
}

/// The exact sum of the numbers of a value line, and 0 of another line.
pub fn line_sum(outcome: &Outcome) -> i128
    ensures exact { result ≡ total (of.line_numbers outcome.now) }
    ensures within { IsWithin (NUMBERS * DATA) result }
{
    match outcome {
        Outcome::Done(completion) => completion_sum(completion),
        Outcome::BadRecord => 0,
    }
}

/// The same of a completion.
fn completion_sum(completion: &Completion) -> i128
    ensures exact { result ≡ total (of.line_numbers (Outcome.Done completion.now)) }
    ensures within { IsWithin (NUMBERS * DATA) result }
{
    match completion {
        Completion::Value(values) => sum_data(values.as_slice()),
        Completion::Error(_) | Completion::Stopped | Completion::NoMemory => 0,
    }
}

//! The names of the jobs.
ghost use Rattle.std.specs.Prelude.{◌≡◌, map};
ghost use Rattle.plan_parts.specs.JobWords.{arithmetic_named, job_keys, job_named, other_job_named, plain_job_named};

use crate::name_table::named;

/// A job of which a file says the name alone.
#[derive(Clone, Copy)]
pub enum PlainJob {
    Neg,
    Index,
    Iota,
    Sum,
    Join,
    Length,
    Parse,
    Show,
    Pass,
}

/// A job with one number.
#[derive(Clone, Copy)]
pub enum Arithmetic {
    Add,
    Sub,
    Mul,
    Div,
}

/// What a job of a file is called.
#[derive(Clone, Copy)]
pub enum JobWord {
    Plain(PlainJob),
    Arithmetic(Arithmetic),
    Within,
    Fail,
    Append,
    Give,
    At,
    ValueOr,
}

/// The job of this name.
pub fn job_named(name: &str) -> Option<JobWord>
    ensures { result ≡ job_named name.now }
{
    if let Some(plain) = plain_job_named(name) {
        return Some(JobWord::Plain(plain));
    }
    if let Some(arithmetic) = arithmetic_named(name) {
        return Some(JobWord::Arithmetic(arithmetic));
    }
    other_job_named(name)
}

/// Of those that a file says by the name alone.
fn plain_job_named(name: &str) -> Option<PlainJob>
    ensures { result ≡ plain_job_named name.now }
{
    named(
        &[
            ("neg", PlainJob::Neg),
            ("index", PlainJob::Index),
            ("iota", PlainJob::Iota),
            ("sum", PlainJob::Sum),
            ("join", PlainJob::Join),
            ("length", PlainJob::Length),
            ("parse", PlainJob::Parse),
            ("show", PlainJob::Show),
            ("pass", PlainJob::Pass),
        ],
        name,
    )
}

/// Of those with one number.
fn arithmetic_named(name: &str) -> Option<Arithmetic>
    ensures { result ≡ arithmetic_named name.now }
{
    named(
        &[
            ("add", Arithmetic::Add),
            ("sub", Arithmetic::Sub),
            ("mul", Arithmetic::Mul),
            ("div", Arithmetic::Div),
        ],
        name,
    )
}

/// Of the others.
fn other_job_named(name: &str) -> Option<JobWord>
    ensures { result ≡ other_job_named name.now }
{
    named(
        &[
            ("within", JobWord::Within),
            ("fail", JobWord::Fail),
            ("append", JobWord::Append),
            ("give", JobWord::Give),
            ("at", JobWord::At),
            ("value_or", JobWord::ValueOr),
        ],
        name,
    )
}

/// The keys that a job has.
pub fn job_keys(word: JobWord) -> &'static [&'static str]
    ensures { map (λ key. key.now) result.now ≡ job_keys word }
{
    match word {
        JobWord::Plain(_) => &["job"],
        JobWord::Arithmetic(_) => &["job", "n"],
        JobWord::Within => &["hi", "job", "lo"],
        JobWord::Fail => &["error", "job"],
        JobWord::Append => &["job", "text"],
        JobWord::Give => &["job", "values"],
        JobWord::At => &["i", "job"],
        JobWord::ValueOr => &["else", "job"],
    }
}

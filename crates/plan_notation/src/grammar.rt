//! Which words there are, and what each takes.
ghost use Rattle.std.specs.Prelude.{◌≡◌, map};
ghost use Rattle.plan_notation.specs.Grammar.{begins_sender, fewest, fewest_of_job, has_brackets, is_element_word, is_one_of, only_wanted, only_wanted_by_job, setting_of_name, wanted_by_node, wanted_by_job, wanted_by_setting, wanted_words};

use crate::wanted::Wanted;
use plan_parts::{JobWord, PlainJob, named};
use plan_reader::{Adaptor, Leaf, NodeWord};

/// A setting.
#[derive(Clone, Copy)]
pub enum Setting {
    Version,
    Input,
    Scope,
    OnError,
    StopAfter,
}

/// The setting of this name.
pub(crate) fn setting_of_name(name: &str) -> Option<Setting>
    ensures { result ≡ setting_of_name name.now }
{
    named(
        &[
            ("version", Setting::Version),
            ("input", Setting::Input),
            ("scope", Setting::Scope),
            ("on_error", Setting::OnError),
            ("stop_after", Setting::StopAfter),
        ],
        name,
    )
}

/// What a setting takes.
pub(crate) fn wanted_by_setting(setting: Setting) -> Wanted
    ensures { result ≡ wanted_by_setting setting }
{
    match setting {
        Setting::Version => Wanted::Version,
        Setting::Input => Wanted::Input,
        Setting::Scope => Wanted::Scope,
        Setting::OnError => Wanted::OnError,
        Setting::StopAfter => Wanted::Number,
    }
}

/// Whether a node begins a sender. Each other takes the sender before a bar.
pub(crate) fn begins_sender(word: NodeWord) -> bool
    ensures { result ≡ begins_sender word }
{
    match word {
        NodeWord::Leaf(_) | NodeWord::WhenAll | NodeWord::Ahead => true,
        NodeWord::Adaptor(Adaptor::StartsOn) => true,
        _ => false,
    }
}

/// Whether a node has arguments in brackets.
pub(crate) fn has_brackets(word: NodeWord) -> bool
    ensures { result ≡ has_brackets word }
{
    match word {
        NodeWord::Leaf(Leaf::Input) => false,
        NodeWord::Leaf(Leaf::JustStopped) => false,
        NodeWord::Adaptor(Adaptor::Unstoppable) => false,
        _ => true,
    }
}

/// What a node takes behind so many arguments. None: it takes no more.
pub(crate) fn wanted_by_node(word: NodeWord, count: usize) -> Option<Wanted>
    ensures { result ≡ wanted_by_node word count }
{
    match word {
        NodeWord::Leaf(Leaf::Just) => Some(Wanted::Constant),
        NodeWord::WhenAll => Some(Wanted::Sender),
        NodeWord::Let(_) => Some(if count == 0 {
            Wanted::Job
        } else {
            Wanted::Sender
        }),
        NodeWord::Ahead => {
            if count < 2 {
                Some(Wanted::Sender)
            } else {
                None
            }
        }
        NodeWord::Adaptor(Adaptor::StartsOn) => match count {
            0 => Some(Wanted::Context),
            1 => Some(Wanted::Sender),
            _ => None,
        },
        word => { if count == 0 { only_wanted(word) } else { None } }
    }
}

/// What a node takes that takes one argument.
fn only_wanted(word: NodeWord) -> Option<Wanted>
    ensures { result ≡ only_wanted word }
{
    match word {
        NodeWord::Leaf(Leaf::JustError) => Some(Wanted::Text),
        NodeWord::Leaf(Leaf::Schedule) => Some(Wanted::Context),
        NodeWord::Leaf(Leaf::Delay) => Some(Wanted::Number),
        NodeWord::Leaf(Leaf::ReadEnv) => Some(Wanted::Query),
        NodeWord::Adaptor(Adaptor::Then) => Some(Wanted::Job),
        NodeWord::Adaptor(Adaptor::UponError) => Some(Wanted::Job),
        NodeWord::Adaptor(Adaptor::UponStopped) => Some(Wanted::Job),
        NodeWord::Adaptor(Adaptor::ContinuesOn) => Some(Wanted::Context),
        NodeWord::Adaptor(Adaptor::StoppedAsOptional) => Some(Wanted::Kind),
        NodeWord::Adaptor(Adaptor::StoppedAsError) => Some(Wanted::Text),
        NodeWord::Bulk => Some(Wanted::ElementJob),
        _ => None,
    }
}

/// The fewest arguments of a node. Too few children and bodies are refused as in any plan.
pub(crate) fn fewest(word: NodeWord) -> usize
    ensures { result ≡ fewest word }
{
    match word {
        NodeWord::Leaf(Leaf::Just) | NodeWord::WhenAll => 0,
        NodeWord::Ahead | NodeWord::Adaptor(Adaptor::StartsOn) => 2,
        _ => 1,
    }
}

/// Whether a job is one over the elements of a row.
pub(crate) fn is_element_word(job: JobWord) -> bool
    ensures { result ≡ is_element_word job }
{
    match job {
        JobWord::Arithmetic(_) | JobWord::Within => true,
        JobWord::Plain(PlainJob::Neg) | JobWord::Plain(PlainJob::Index) => true,
        _ => false,
    }
}

/// What a job takes behind so many constants. None: it takes no more.
pub(crate) fn wanted_by_job(job: JobWord, count: usize) -> Option<Wanted>
    ensures { result ≡ wanted_by_job job count }
{
    match job {
        JobWord::Give => Some(Wanted::Constant),
        JobWord::Within => {
            if count < 2 {
                Some(Wanted::Number)
            } else {
                None
            }
        }
        job => {
            if count == 0 {
                only_wanted_by_job(job)
            } else {
                None
            }
        }
    }
}

/// What a job takes that takes one constant.
fn only_wanted_by_job(job: JobWord) -> Option<Wanted>
    ensures { result ≡ only_wanted_by_job job }
{
    match job {
        JobWord::Arithmetic(_) | JobWord::At => Some(Wanted::Number),
        JobWord::Fail | JobWord::Append => Some(Wanted::Text),
        JobWord::ValueOr => Some(Wanted::Scalar),
        _ => None,
    }
}

/// The fewest constants of a job.
pub(crate) fn fewest_of_job(job: JobWord) -> usize
    ensures { result ≡ fewest_of_job job }
{
    match job {
        JobWord::Plain(_) | JobWord::Give => 0,
        JobWord::Within => 2,
        _ => 1,
    }
}

/// The words that are wanted.
pub fn wanted_words(wanted: Wanted) -> &'static [&'static str]
    ensures { map (λ word. word.now) result.now ≡ wanted_words wanted }
{
    match wanted {
        Wanted::Context => &["loop", "pool"],
        Wanted::Query => &["stop", "record"],
        Wanted::Kind => &["int", "text"],
        Wanted::Input => &["int", "text", "row"],
        Wanted::Scope => &["simple", "counting"],
        Wanted::OnError => &["go", "stop"],
        Wanted::Version => &["1", "2"],
        _ => &[],
    }
}

/// Whether a name is one of these words.
pub(crate) fn is_one_of(words: &[&str], name: &str) -> bool
    ensures { result ≡ is_one_of (map (λ word. word.now) words.now) name.now }
{
    'words: for word in words {
        if name == *word {
            return true;
        }
    }
    false
}

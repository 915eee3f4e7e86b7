//! What words ask to be joined.
ghost use Rattle.std.specs.Prelude.{◌≡◌, true, false, None, MatchOption};
ghost use Rattle.std.specs.List.{list_all};
ghost use Rattle.exec_words.specs.Reading.{is_name};
ghost use Rattle.join_commands.specs.Asks.{are_names, command_asked, join_usage, lines_asked, IsRequest, IsLinesRequest};

/// The most parts that are joined at a time.
pub const MOST_PARTS: usize = 1_000_000;

/// What is asked of parts.
#[derive(Clone, Copy)]
pub(crate) enum Asked {
    /// `lines PART..`: the lines of parts that follow each other.
    Lines,
    /// `lines --dealt PART..`: the lines of parts to which they were dealt in turn.
    Dealt,
    /// `summary PART..`: the sum of their summaries.
    Summary,
}

/// What is asked, and of which parts.
#[derive(Clone, Copy)]
pub(crate) struct Request<'a> {
    pub(crate) asked: Asked,
    pub(crate) names: &'a [&'a str],
}

/// What is asked. None is a fault of usage.
pub(crate) fn read_words<'a>(words: &'a [&'a str]) -> Option<Request<'a>>
    ensures { MatchOption result (command_asked words.now ≡ None) (IsRequest words.now) }
{
    let Some((first, rest)) = words.split_first() else {
        return None;
    };
    if *first == "lines" {
        return read_lines(rest);
    }
    if *first == "summary" {
        return asked_with(Asked::Summary, rest);
    }
    None
}

/// What the words behind `lines` ask.
fn read_lines<'a>(words: &'a [&'a str]) -> Option<Request<'a>>
    ensures { MatchOption result (lines_asked words.now ≡ None) (IsLinesRequest words.now) }
{
    let Some((first, rest)) = words.split_first() else {
        return None;
    };
    if *first == "--dealt" {
        asked_with(Asked::Dealt, rest)
    } else {
        asked_with(Asked::Lines, words)
    }
}

/// This, where the words are names of parts.
fn asked_with<'a>(asked: Asked, names: &'a [&'a str]) -> Option<Request<'a>>
    ensures { MatchOption result (are_names names.now ≡ false) (λ request.
        (request.asked ≡ asked) × (request.names.now ≡ names.now)
        × (are_names names.now ≡ true)) }
{
    if are_names(names) {
        Some(Request { asked, names })
    } else {
        None
    }
}

/// Whether words are names of parts: one or more, and not too many.
fn are_names(names: &[&str]) -> bool
    ensures { result ≡ are_names names.now }
{
    1 <= names.len() && names.len() <= MOST_PARTS && are_all_names(names)
}

/// Whether each word is a name.
fn are_all_names(words: &[&str]) -> bool
    ensures { result ≡ list_all (λ word. is_name word.now) words.now }
{
    words.iter().all(|word| is_name(*word))
}

/// Whether a word is a name: it isn't empty, and doesn't begin with `-`.
fn is_name(word: &str) -> bool
    ensures { result ≡ is_name word.now }
{
    match word.as_bytes() {
        [] => false,
        [first, ..] => *first != b'-',
    }
}

/// The lines that tell how the program is called.
pub(crate) fn usage_lines() -> &'static [u8]
    ensures { result.now ≡ join_usage }
{
    b"usage: exec_join lines [--dealt] PART..\nusage: exec_join summary PART..\n"
}

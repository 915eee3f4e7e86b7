//! Lists of kinds that jobs ask for.
ghost use Rattle.std.specs.Prelude.{◌≡◌};
ghost use Rattle.std.specs.List.{list_all};
ghost use Rattle.exec_job.specs.Takes.{is_int, is_text, is_row, is_maybe_int, is_maybe_text, has_numbers, has_bytes};

use exec_value::Kind;

/// One int and nothing else.
pub(crate) fn is_int(kinds: &[Kind]) -> bool
    ensures { result ≡ is_int kinds.now }
{
    matches!(kinds, [Kind::Int])
}

/// One text and nothing else.
pub(crate) fn is_text(kinds: &[Kind]) -> bool
    ensures { result ≡ is_text kinds.now }
{
    matches!(kinds, [Kind::Text])
}

/// One row and nothing else.
pub(crate) fn is_row(kinds: &[Kind]) -> bool
    ensures { result ≡ is_row kinds.now }
{
    matches!(kinds, [Kind::Row])
}

/// One number that may be missing, and nothing else.
pub(crate) fn is_maybe_int(kinds: &[Kind]) -> bool
    ensures { result ≡ is_maybe_int kinds.now }
{
    matches!(kinds, [Kind::MaybeInt])
}

/// One text that may be missing, and nothing else.
pub(crate) fn is_maybe_text(kinds: &[Kind]) -> bool
    ensures { result ≡ is_maybe_text kinds.now }
{
    matches!(kinds, [Kind::MaybeText])
}

/// Ints and rows alone.
pub(crate) fn are_numbers(kinds: &[Kind]) -> bool
    ensures { result ≡ list_all has_numbers kinds.now }
{
    kinds
        .iter()
        .all(|kind| matches!(kind, Kind::Int | Kind::Row))
}

/// Texts alone.
pub(crate) fn are_texts(kinds: &[Kind]) -> bool
    ensures { result ≡ list_all has_bytes kinds.now }
{
    kinds.iter().all(|kind| matches!(kind, Kind::Text))
}

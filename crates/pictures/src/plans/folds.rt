//! Equal neighbours, folded.
ghost use Rattle.std.specs.Prelude.{◌≡◌, ◌+◌, ◌<◌, ◌≤◌, ◌^◌, ◌++◌, length, bytes_eq, get_or, [], IfOk, OnOk};
ghost use Rattle.pictures.specs.Adding.{Adds};
ghost use Rattle.pictures.specs.Plans.Folds.{folded_text, folds_from, folds_of, one_folded, texts_of, times_text};

use crate::text::put_all;
use itoa::Buffer;
use std::alloc::{AllocError, Global};

/// Equal neighbours of a list: the index of the first, and how many they are.
#[derive(Clone, Copy)]
pub(crate) struct Fold {
    pub(crate) at: usize,
    pub(crate) count: usize,
}

/// The folds of these texts, in order: each is of equal neighbours, and of as many as there are.
pub(crate) fn folds_of(alloc: Global, texts: &[Vec<u8>]) -> Result<Vec<Fold>, AllocError>
    ensures { IfOk result (λ folds. folds.items ≡ folds_of (texts_of texts.now)) }
{
    match texts {
        [] => Ok(Vec::new(alloc)),
        [first, later @ ..] => folds_from(alloc, first, later),
    }
}

/// Whether these are one text.
fn is_same(first: &[u8], second: &[u8]) -> bool
    ensures { result ≡ bytes_eq first.now second.now }
{
    first == second
}

/// The folds of a text and of those behind it.
fn folds_from(alloc: Global, first: &[u8], later: &[Vec<u8>]) -> Result<Vec<Fold>, AllocError>
    ensures { IfOk result
        (λ folds. folds.items ≡ folds_from 0 1 first.now (texts_of later.now)) }
{
    let mut folds = Vec::new(alloc);
    let mut at = 0;
    let mut count = 1;
    let mut text = first;
    for next in later {
        if is_same(next.as_slice(), text) {
            count += 1;
            continue;
        }
        folds.push(Fold { at, count })?;
        at += count;
        count = 1;
        text = next.as_slice();
    }
    folds.push(Fold { at, count })?;
    Ok(folds)
}

/// Adds how many there are, where they are more than one: ` x51`.
pub(crate) fn put_times(count: usize, text: &mut Vec<u8>) -> Result<(), AllocError>
    ensures { OnOk result (Adds text.old.items text.new.items (times_text count)) }
{
    if count < 2 {
        return put_all(&[], text);
    }
    let mut buffer = Buffer::new();
    put_all(&[" x", buffer.format(count)], text)
}

/// Adds texts, each behind a blank, and equal neighbours once: ` int x51 text`.
#[tactic(auto, unfolding(crate::specs::Plans::Folds::folded_text))]
pub(crate) fn put_folded(
    alloc: Global,
    texts: &[Vec<u8>],
    text: &mut Vec<u8>,
) -> Result<(), AllocError>
    ensures { OnOk result (Adds text.old.items text.new.items
        (folded_text (texts_of texts.now))) }
{
    let folds = folds_of(alloc, texts)?;
    for fold in folds.as_slice() {
        put_fold(texts, *fold, text)?;
    }
    Ok(())
}

/// Adds the text of a fold.
fn put_fold(texts: &[Vec<u8>], fold: Fold, text: &mut Vec<u8>) -> Result<(), AllocError>
    ensures { OnOk result (Adds text.old.items text.new.items
        (one_folded (texts_of texts.now) fold)) }
{
    put_all(&[" "], text)?;
    put_at(texts, fold.at, text)?;
    put_times(fold.count, text)
}

/// Adds the text at an index.
fn put_at(texts: &[Vec<u8>], at: usize, text: &mut Vec<u8>) -> Result<(), AllocError>
    ensures { OnOk result (Adds text.old.items text.new.items
        (get_or (texts_of texts.now) at [])) }
{
    match texts.get(at) {
        Some(found) => put_bytes(found, text),
        None => put_bytes(b"", text),
    }
}

/// Adds these bytes to the end of a text.
pub(crate) fn put_bytes(bytes: &[u8], text: &mut Vec<u8>) -> Result<(), AllocError>
    ensures { OnOk result (Adds text.old.items text.new.items bytes.now) }
{
    text.extend_from_slice(bytes)
}

//! How a plan is written.
ghost use Rattle.std.specs.Prelude.{◌≡◌, ◌++◌, IfOk, OnOk, map};
ghost use Rattle.plan_shape.specs.Blueprint.{IsPlan};
ghost use Rattle.plan_notation.specs.Tokens.{on_error_words, scope_words, settings_words, stop_words, version_words};
ghost use Rattle.plan_words.specs.Seen.{words_in};
ghost use Rattle.plan_notation.specs.NodeTokens.{HasHeldNodes, notation_words, words_at};

use crate::joined::Piece;
use crate::nodes::{all_words, kind_name};
use crate::words::Words;
use crate::written::put_with_count;
use node_tree::ScopeKind;
use plan_rules::Settings;
use plan_shape::Plan;
use plan_words::laid_out;
use std::alloc::{AllocError, Global};

/// A plan in the notation, in lines of at most 100 columns.
pub fn notation_of(alloc: Global, plan: &Plan) -> Result<Vec<u8>, AllocError>
    ensures words { IfOk result (λ text. words_in text.items ≡ notation_words plan.now) }
    ensures plan { OnOk result (IsPlan plan.now) }
    ensures held { OnOk result (HasHeldNodes plan.now.nodes) }
{
    let settings = settings_words(alloc, plan.settings())?;
    let done = all_words(alloc, plan)?;
    let root = words_at(&done, plan.size() as usize - 1);
    let text = laid_out(alloc, settings.pieces(), root)?;
    Ok(text)
}

/// The tokens of the node of this number.
fn words_at(done: &[Words], number: usize) -> &[Piece]
    ensures { map (λ piece. piece.items) result.now ≡ words_at done.now number }
{
    match done.get(number) {
        Some(words) => words.pieces(),
        None => &[],
    }
}

/// The settings: each but the kind of the records only where it isn't what stands without it.
fn settings_words(alloc: Global, settings: &Settings) -> Result<Words, AllocError>
    ensures { IfOk result (λ words. words ≡ settings_words settings.now) }
{
    let mut words = Words::new(alloc);
    put_version(settings.version, &mut words)?;
    words.put_all(&["input", kind_name(settings.input)])?;
    put_scope(settings.scope, &mut words)?;
    put_on_error(settings.on_error_stop, &mut words)?;
    put_stop(settings.stop_after, &mut words)?;
    Ok(words)
}

/// Adds the version, if it isn't the first.
fn put_version(version: u32, words: &mut Words) -> Result<(), AllocError>
    ensures { OnOk result (words.new ≡ words.old ++ version_words version) }
{
    if version == 2 {
        words.put_all(&["version", "2"])
    } else {
        Ok(())
    }
}

/// Adds the kind of the scope, if it takes no stop request.
fn put_scope(scope: ScopeKind, words: &mut Words) -> Result<(), AllocError>
    ensures { OnOk result (words.new ≡ words.old ++ scope_words scope) }
{
    match scope {
        ScopeKind::Simple => words.put_all(&["scope", "simple"]),
        ScopeKind::Counting => Ok(()),
    }
}

/// Adds the rule of a stop on an error, if there is one.
fn put_on_error(stop: bool, words: &mut Words) -> Result<(), AllocError>
    ensures { OnOk result (words.new ≡ words.old ++ on_error_words stop) }
{
    if stop {
        words.put_all(&["on_error", "stop"])
    } else {
        Ok(())
    }
}

/// Adds the rule of a stop after some records, if there is one.
fn put_stop(stop_after: Option<u32>, words: &mut Words) -> Result<(), AllocError>
    ensures { OnOk result (words.new ≡ words.old ++ stop_words stop_after) }
{
    match stop_after {
        Some(count) => put_with_count("stop_after", count, words),
        None => Ok(()),
    }
}

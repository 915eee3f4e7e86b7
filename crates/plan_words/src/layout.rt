//! How tokens are laid out in lines.
//!
//! What stands in brackets, and what stands between bars, is on one line where it fits there. Else
//! each argument, and each node behind a bar, begins a line, further in by two columns for each
//! bracket.
ghost use Rattle.std.specs.Prelude.{◌≡◌, ◌++◌, IfOk, OnOk, map, true};
ghost use Rattle.std.specs.List.{list_all};
ghost use Rattle.plan_words.specs.Seen.{words_in};
ghost use Rattle.plan_words.specs.Wholes.{is_sign, is_token, is_whole};
ghost use Rattle.plan_words.specs.Pages.{AddsToken, AddsTokens};

use crate::kind::{TokenKind, token_kind};
use crate::page::Page;
use crate::widths::width_of_group;
use std::alloc::{AllocError, Global};

/// The text of a sender's tokens, behind these settings, two tokens each.
pub fn laid_out(
    alloc: Global,
    settings: &[Vec<u8>],
    words: &[Vec<u8>],
) -> Result<Vec<u8>, AllocError>
    requires settings { list_all is_whole (map (λ word. word.items) settings.now) ≡ true }
    requires words { list_all is_token (map (λ word. word.items) words.now) ≡ true }
    ensures { IfOk result (λ text. words_in text.items
        ≡ map (λ word. word.items) settings.now ++ map (λ word. word.items) words.now) }
{
    let mut page = Page::new(alloc);
    put_settings(settings, &mut page)?;
    page.begin_group(false, words)?;
    put_tokens(words, &mut page)?;
    page.end_line()?;
    Ok(page.into_text())
}

/// Adds settings, two tokens each, in lines of their own.
fn put_settings(settings: &[Vec<u8>], page: &mut Page) -> Result<(), AllocError>
    requires { list_all is_whole (map (λ word. word.items) settings.now) ≡ true }
    ensures { OnOk result (AddsTokens (map (λ word. word.items) settings.now) page.old page.new) }
{
    let mut is_name = true;
    'settings: for word in settings {
        put_setting(word, is_name, page)?;
        is_name = !is_name;
    }
    Ok(())
}

/// Adds a setting's name, or its value, which ends the line.
fn put_setting(word: &[u8], is_name: bool, page: &mut Page) -> Result<(), AllocError>
    requires { is_whole word.now ≡ true }
    ensures { OnOk result (AddsToken word.now page.old page.new) }
{
    page.blank()?;
    page.put_whole(word)?;
    if is_name {
        return Ok(());
    }
    page.end_line()?;
    Ok(())
}

/// Adds tokens.
fn put_tokens(words: &[Vec<u8>], page: &mut Page) -> Result<(), AllocError>
    requires { list_all is_token (map (λ word. word.items) words.now) ≡ true }
    ensures { OnOk result (AddsTokens (map (λ word. word.items) words.now) page.old page.new) }
{
    'words: for (index, word) in words.iter().enumerate() {
        put_token(word, &words[index + 1..], page)?;
    }
    Ok(())
}

/// Adds a token, before these.
#[tactic(auto, using(crate::proofs::PageLemmas::token_kinds))]
fn put_token(word: &[u8], later: &[Vec<u8>], page: &mut Page) -> Result<(), AllocError>
    requires { is_token word.now ≡ true }
    ensures { OnOk result (AddsToken word.now page.old page.new) }
{
    match token_kind(word) {
        TokenKind::Open => {
            page.put_sign(word, false)?;
            let fits = page.fits(width_of_group(later));
            page.begin_group(!fits, later)?;
            Ok(())
        }
        TokenKind::Close => {
            page.end_group();
            page.guard(2)?;
            page.put_sign(word, true)?;
            Ok(())
        }
        TokenKind::Comma => {
            page.guard(2)?;
            page.put_sign(word, true)?;
            let arguments = page.end_group();
            page.begin_group(arguments, later)?;
            Ok(())
        }
        TokenKind::Bar => put_bar(word, page),
        TokenKind::Word | TokenKind::Constant => put_apart(word, page),
    }
}

/// Adds a word or a constant.
fn put_apart(word: &[u8], page: &mut Page) -> Result<(), AllocError>
    requires { is_whole word.now ≡ true }
    ensures { OnOk result (AddsToken word.now page.old page.new) }
{
    page.guard(word.len() + 2)?;
    page.blank()?;
    page.put_whole(word)?;
    Ok(())
}

/// Adds a bar.
fn put_bar(word: &[u8], page: &mut Page) -> Result<(), AllocError>
    requires { is_sign word.now ≡ true }
    ensures { OnOk result (AddsToken word.now page.old page.new) }
{
    if page.breaks_bars() {
        page.line()?;
        page.put_sign(word, true)?;
        return Ok(());
    }
    page.guard(3)?;
    page.blank()?;
    page.put_sign(word, true)?;
    Ok(())
}

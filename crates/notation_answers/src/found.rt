//! What stands where something else is wanted.
use plan_notation::Wanted;
use plan_reader::node_named;
use plan_words::{Token, TokenKind, token_kind};
use serde_json::Value;
use std::alloc::{AllocError, Global};

/// The most bytes of a token that a sentence shows.
const MOST_SHOWN: usize = 64;

/// What stands there, as a sentence begins.
pub(crate) fn found_text(
    alloc: Global,
    wanted: Wanted,
    token: Option<&Token>,
) -> Result<Vec<u8>, AllocError> {
    let Some(token) = token else {
        return Vec::from_slice(alloc, b"the text ends");
    };
    let shown = shown_text(alloc, token)?;
    let is_word = token_kind(token.text()) == TokenKind::Word;
    let (before, behind) = match wanted {
        Wanted::Sender if is_node(token) => ("", " stands only behind a bar"),
        Wanted::Adaptor if is_node(token) => ("", " stands behind no bar"),
        wanted if is_word => (noun_of(wanted), ""),
        _ => ("found ", ""),
    };
    let mut text = Vec::from_slice(alloc, before.as_bytes())?;
    text.extend_from_slice(&shown)?;
    text.extend_from_slice(behind.as_bytes())?;
    Ok(text)
}

/// The token in quotes.
fn shown_text(alloc: Global, token: &Token) -> Result<Vec<u8>, AllocError> {
    let bytes = token.text();
    match str::from_utf8(bytes) {
        Ok(text) if bytes.len() <= MOST_SHOWN => Value::try_from_str(alloc, text)?.to_vec(alloc),
        Ok(_) => Vec::from_slice(alloc, b"a long token"),
        Err(_) => Vec::from_slice(alloc, b"a token that is no UTF-8"),
    }
}

/// Whether a token names a node.
fn is_node(token: &Token) -> bool {
    match str::from_utf8(token.text()) {
        Ok(name) => node_named(false, name).is_some(),
        Err(_) => false,
    }
}

/// What a word isn't, where this is wanted.
fn noun_of(wanted: Wanted) -> &'static str {
    match wanted {
        Wanted::Sender | Wanted::Adaptor => "unknown node ",
        Wanted::Job => "unknown job ",
        Wanted::ElementJob => "no job over elements ",
        Wanted::Context => "unknown context ",
        Wanted::Query => "unknown query ",
        Wanted::Kind | Wanted::Input => "unknown kind ",
        Wanted::Scope => "unknown scope ",
        Wanted::OnError => "unknown rule ",
        Wanted::Version => "unknown version ",
        _ => "found ",
    }
}

/// What is wanted, in words.
pub(crate) fn wanted_text(wanted: Wanted) -> &'static str {
    match wanted {
        Wanted::Sender => {
            "input, just, just_error, just_stopped, schedule, delay, read_env, starts_on, when_all \
or ahead"
        }
        Wanted::Adaptor => {
            "then, upon_error, upon_stopped, let_value, let_error, let_stopped, continues_on, \
stopped_as_optional, stopped_as_error, bulk or unstoppable"
        }
        Wanted::Job => {
            "add, sub, mul, div, neg, within, index, fail, iota, sum, append, join, length, parse, \
show, give, at, value_or or pass"
        }
        Wanted::ElementJob => "add, sub, mul, div, neg, within or index",
        Wanted::Context => "loop or pool",
        Wanted::Query => "stop or record",
        Wanted::Kind => "int or text",
        Wanted::Input => "int, text or row",
        Wanted::Scope => "simple or counting",
        Wanted::OnError => "go or stop",
        Wanted::Version => "1 or 2",
        Wanted::Number => "a number of 64 bits",
        Wanted::Text => "a text in quotes",
        Wanted::Scalar => "a number of 64 bits or a text in quotes",
        Wanted::Constant => "a number, a text in quotes or a row",
        Wanted::Bracket => "(",
        Wanted::Close => ")",
        Wanted::Separator => ", or )",
        Wanted::End => "| or the end of the text",
        Wanted::Depth => "at most 56 nodes on a path",
    }
}

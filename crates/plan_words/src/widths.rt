//! How many columns tokens take on a line.
use crate::kind::{TokenKind, token_kind};

/// The columns of a character or an escape at the front of a text.
pub(crate) fn width_of_character(rest: &[u8]) -> usize {
    match rest {
        [b'\\', b'u', ..] => 6,
        [b'\\', ..] => 2,
        [0xc0..=0xdf, ..] => 2,
        [0xe0..=0xef, ..] => 3,
        [0xf0..=0xff, ..] => 4,
        _ => 1,
    }
}

/// The columns up to a row's next comma, with it.
pub(crate) fn width_of_item(rest: &[u8]) -> usize {
    match rest.iter().position(|byte| *byte == b',') {
        Some(index) => index + 1,
        None => rest.len(),
    }
}

/// The columns of a token and what stands before or behind it on a line.
fn width(word: &[u8]) -> usize {
    match token_kind(word) {
        TokenKind::Open | TokenKind::Close => 1,
        TokenKind::Comma => 2,
        TokenKind::Bar => 2,
        TokenKind::Word | TokenKind::Constant => word.len().saturating_add(1),
    }
}

/// The columns of tokens up to the bracket that closes them, on one line.
pub(crate) fn width_of_group(words: &[Vec<u8>]) -> usize {
    let mut columns = 0_usize;
    let mut depth = 0_usize;
    for word in words {
        columns = columns.saturating_add(width(word));
        match token_kind(word) {
            TokenKind::Open => depth = depth.saturating_add(1),
            TokenKind::Close => {
                if depth == 0 {
                    return columns;
                }
                depth -= 1;
            }
            _ => {}
        }
    }
    columns
}

/// The columns of tokens up to the comma or the bracket behind them, on one line.
pub(crate) fn width_of_argument(words: &[Vec<u8>]) -> usize {
    let mut columns = 0_usize;
    let mut depth = 0_usize;
    for word in words {
        let kind = token_kind(word);
        if depth == 0 && (kind == TokenKind::Comma || kind == TokenKind::Close) {
            return columns;
        }
        columns = columns.saturating_add(width(word));
        match kind {
            TokenKind::Open => depth = depth.saturating_add(1),
            TokenKind::Close => depth = depth.saturating_sub(1),
            _ => {}
        }
    }
    columns
}

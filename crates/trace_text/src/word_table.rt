//! Words, and tables of them.
ghost use Rattle.std.specs.Prelude.{◌≡◌, map};
ghost use Rattle.std.specs.Str.{bytes_eq};
ghost use Rattle.trace_text.specs.WordTable.{found_in};

/// Whether the bytes are this text.
pub fn is_text(bytes: &[u8], text: &[u8]) -> bool
    ensures { result ≡ bytes_eq bytes.now text.now }
{
    bytes == text
}

/// What a table has for a word: the value of the first row of that word.
pub fn find_word<A: Copy>(rows: &[(&[u8], A)], word: &[u8]) -> Option<A>
    ensures { result ≡ found_in (map (λ row. (row.0.now, row.1)) rows.now) word.now }
{
    'rows: for row in rows {
        if word == row.0 {
            return Some(row.1);
        }
    }
    None
}

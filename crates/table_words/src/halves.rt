//! The two halves of a word.
ghost use Rattle.std.specs.Prelude.{◌≡◌, ℕ, ◌≤◌, ◌<◌, ◌^◌};
ghost use Rattle.table_words.specs.Stamps.{stamp_of, code_of, packed};
ghost use Rattle.table_words.specs.Controls.{control_written, control_read, callback_written, callback_read, source_written, source_read};
ghost use Rattle.table_words.specs.Blocks.{block_written, block_read};
ghost use Rattle.table_words.specs.ScopeNumbers.{scope_written, scope_read};

const HALF: u64 = 1 << 32;

/// The generation of the block at which the word was written.
pub fn stamp(word: u64) -> u32
    ensures { result ≡ stamp_of word }
{
    (word / HALF) as u32
}

/// What the word says at its generation.
pub(crate) fn code(word: u64) -> u32
    ensures { result ≡ code_of word }
{
    (word % HALF) as u32
}

/// The word of these halves.
pub(crate) fn pack(generation: u32, code: u32) -> u64
    ensures value { result ≡ packed generation code }
    ensures stamp { stamp_of result ≡ generation }
    ensures code { code_of result ≡ code }
{
    generation as u64 * HALF + code as u64
}

/// To read a word and to write it again changes nothing: of a control word always, of another word
/// where its code is one of those that are written.
pub fn words_are_exact()
    ensures control { (w : ℕ) → control_written (stamp_of w) (control_read w) ≡ w }
    ensures callback { (w : ℕ) → code_of w ≤ 4
        → callback_written (stamp_of w) (callback_read w) ≡ w }
    ensures source { (w : ℕ) → code_of w < 8
        → source_written (stamp_of w) (source_read w) ≡ w }
    ensures block { (w : ℕ) → code_of w ≤ 2 → block_written (block_read w) ≡ w }
    ensures scope { (w : ℕ) → w < 2 ^ 36 → scope_written (scope_read w) ≡ w }
{}

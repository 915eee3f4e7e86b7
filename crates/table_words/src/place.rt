//! The words of a place: control, callback and source.
ghost use Rattle.std.specs.Prelude.{◌≡◌, ◌≤◌, ◌+◌};
ghost use Rattle.table_words.specs.Stamps.{stamp_of};
ghost use Rattle.table_words.specs.Controls.{control_code, control_written, control_read, callback_written, callback_read, source_written, source_read};
ghost use Rattle.life_rules.specs.Words.{pending};

use crate::halves::{code, pack};
use life_rules::{Bits, CallbackPhase, ControlWord};

/// The first code of a busy word; so many pending are added to it.
const BUSY: u32 = 5;

fn code_of_control(control: ControlWord) -> u32
    requires { pending control + 5 ≤ 4294967295 }
    ensures { result ≡ control_code control }
{
    match control {
        ControlWord::Idle => 0,
        ControlWord::Done => 1,
        ControlWord::ReadyLoop => 2,
        ControlWord::ReadyPool => 3,
        ControlWord::Parked => 4,
        ControlWord::Busy(pending) => BUSY + pending,
    }
}

/// The control word that says so at this generation.
pub fn control_number(generation: u32, control: ControlWord) -> u64
    requires { pending control + 5 ≤ 4294967295 }
    ensures value { result ≡ control_written generation control }
    ensures stamp { stamp_of result ≡ generation }
    ensures control { control_read result ≡ control }
{
    pack(generation, code_of_control(control))
}

/// What a control word says at its generation.
pub fn read_control(word: u64) -> ControlWord
    ensures { result ≡ control_read word }
{
    match code(word) {
        0 => ControlWord::Idle,
        1 => ControlWord::Done,
        2 => ControlWord::ReadyLoop,
        3 => ControlWord::ReadyPool,
        4 => ControlWord::Parked,
        busy => ControlWord::Busy(busy - BUSY),
    }
}

/// The callback word that says so at this generation.
pub fn callback_number(generation: u32, phase: CallbackPhase) -> u64
    ensures value { result ≡ callback_written generation phase }
    ensures stamp { stamp_of result ≡ generation }
    ensures phase { callback_read result ≡ phase }
{
    let code = match phase {
        CallbackPhase::Never => 0,
        CallbackPhase::Armed => 1,
        CallbackPhase::Running => 2,
        CallbackPhase::Ran => 3,
        CallbackPhase::Removed => 4,
    };
    pack(generation, code)
}

/// What a callback word says at its generation.
pub fn read_callback(word: u64) -> CallbackPhase
    ensures { result ≡ callback_read word }
{
    match code(word) {
        0 => CallbackPhase::Never,
        1 => CallbackPhase::Armed,
        2 => CallbackPhase::Running,
        3 => CallbackPhase::Ran,
        _ => CallbackPhase::Removed,
    }
}

/// The source word with these bits at this generation. That of the scope has generation 0.
pub fn source_number(generation: u32, bits: Bits) -> u64
    ensures value { result ≡ source_written generation bits }
    ensures stamp { stamp_of result ≡ generation }
    ensures bits { source_read result ≡ bits }
{
    let requested = if bits.requested { 1 } else { 0 };
    let failed = if bits.failed { 2 } else { 0 };
    let scanned = if bits.scanned { 4 } else { 0 };
    pack(generation, requested + failed + scanned)
}

/// The bits of a source word.
pub fn read_source(word: u64) -> Bits
    ensures { result ≡ source_read word }
{
    let code = code(word);
    Bits {
        requested: code % 2 == 1,
        failed: code / 2 % 2 == 1,
        scanned: code / 4 % 2 == 1,
    }
}

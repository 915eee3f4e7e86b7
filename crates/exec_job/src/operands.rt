//! Operands of known kinds.
ghost use Rattle.std.specs.Prelude.{◌≡◌, [], ◌∷◌, length};
ghost use Rattle.exec_value.specs.Kinds.{HaveKinds};

use exec_value::{Datum, Kind, Txt};

/// The one datum.
pub(crate) fn only(operands: &[Datum]) -> &Datum
    requires { length operands.now ≡ 1 }
    ensures { operands.now ≡ result.now ∷ [] }
{
    &operands[0]
}

/// The one number.
pub(crate) fn only_int(operands: &[Datum]) -> i64
    requires { HaveKinds operands.now (Kind.Int ∷ []) }
    ensures { operands.now ≡ Datum.Int result ∷ [] }
{
    match only(operands) {
        Datum::Int(x) => *x,
        _ => unreachable!(),
    }
}

/// The one text.
pub(crate) fn only_text(operands: &[Datum]) -> &Txt
    requires { HaveKinds operands.now (Kind.Text ∷ []) }
    ensures { operands.now ≡ Datum.Text result.now ∷ [] }
{
    match only(operands) {
        Datum::Text(text) => text,
        _ => unreachable!(),
    }
}

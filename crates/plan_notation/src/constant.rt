//! Constants: numbers, texts and rows, as JSON has them.
ghost use Rattle.std.specs.Prelude.{◌≡◌, IfOk, option_map};
ghost use Rattle.serde_json.specs.View.{view};
ghost use Rattle.plan_reader.specs.Plans.{json_of};
ghost use Rattle.plan_notation.specs.Constants.{constant_kind, fits, kind_of_value};

use crate::wanted::Wanted;
use serde_json::Value;
use std::alloc::{AllocError, Global};

/// What a constant is.
#[derive(Clone, Copy)]
pub enum ConstantKind {
    Number,
    Text,
    Row,
}

/// What the constant with these bytes is. None: the bytes are no constant.
pub(crate) fn constant_kind(alloc: Global, text: &[u8]) -> Result<Option<ConstantKind>, AllocError>
    ensures { IfOk result (λ kind. kind ≡ constant_kind text.now) }
{
    match value_of(alloc, text)? {
        Some(value) => Ok(kind_of_value(&value)),
        None => Ok(None),
    }
}

/// The JSON value of these bytes.
fn value_of(alloc: Global, text: &[u8]) -> Result<Option<Value>, AllocError>
    ensures { IfOk result (λ value. option_map view value ≡ json_of text.now) }
{
    match Value::from_slice(alloc, text) {
        Ok(value) => Ok(Some(value)),
        Err(e) if e.is_memory() => Err(AllocError),
        Err(_) => Ok(None),
    }
}

/// What a JSON value is as a constant. The numbers of a row are judged with the plan.
fn kind_of_value(value: &Value) -> Option<ConstantKind>
    ensures { result ≡ kind_of_value (view value.now) }
{
    if value.as_i64().is_some() {
        Some(ConstantKind::Number)
    } else if value.as_str().is_some() {
        Some(ConstantKind::Text)
    } else if value.as_array().is_some() {
        Some(ConstantKind::Row)
    } else {
        None
    }
}

/// Whether a constant is one that is wanted.
pub(crate) fn fits(wanted: Wanted, kind: ConstantKind) -> bool
    ensures { result ≡ fits wanted kind }
{
    match wanted {
        Wanted::Number => matches!(kind, ConstantKind::Number),
        Wanted::Text => matches!(kind, ConstantKind::Text),
        Wanted::Scalar => matches!(kind, ConstantKind::Number | ConstantKind::Text),
        Wanted::Constant => true,
        _ => false,
    }
}

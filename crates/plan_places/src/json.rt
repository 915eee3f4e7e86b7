//! The JSON of a plan file.
ghost use Rattle.std.specs.Prelude.{◌≡◌, IfOk, option_map};
ghost use Rattle.serde_json.specs.View.{view};
ghost use Rattle.plan_places.specs.Told.{IsPosition};
ghost use Rattle.plan_reader.specs.Plans.{json_of};

use crate::place::position_text;
use serde_json::Value;
use std::alloc::{AllocError, Global};

/// The JSON value of these bytes.
pub(crate) fn value_of(alloc: Global, bytes: &[u8]) -> Result<Option<Value>, AllocError>
    ensures { IfOk result (λ value. option_map view value ≡ json_of bytes.now) }
{
    match Value::from_slice(alloc, bytes) {
        Ok(value) => Ok(Some(value)),
        Err(e) if e.is_memory() => Err(AllocError),
        Err(_) => Ok(None),
    }
}

/// Where `serde_json` says that it read on no further, if it did: a line and a column.
pub(crate) fn position_of(alloc: Global, bytes: &[u8]) -> Result<Vec<u8>, AllocError>
    ensures { IfOk result (λ text. IsPosition text.items) }
{
    match Value::from_slice(alloc, bytes) {
        Ok(_) => position_text(alloc, 0, 0),
        Err(e) if e.is_memory() => Err(AllocError),
        Err(e) => position_text(alloc, e.line(), e.column()),
    }
}

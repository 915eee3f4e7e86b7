//! Members of JSON objects.
ghost use Rattle.std.specs.Prelude.{◌≡◌, IfOk};
ghost use Rattle.serde_json.specs.Data.{put, string};
ghost use Rattle.serde_json.specs.View.{view, members_view};
ghost use Rattle.exec_value.specs.Text.{IsText};
ghost use Rattle.plan_writer.specs.Values.{named};

use exec_value::Txt;
use serde_json::{Map, Value};
use std::alloc::{AllocError, Global};

/// The members of an object, which stand in the order of their keys.
pub(crate) type Members = Map<String, Value>;

/// The one member of an object that says only its name.
pub(crate) fn named(alloc: Global, key: &str, name: &str) -> Result<Members, AllocError>
    ensures { IfOk result (λ members. members_view members.entries ≡ named key.now name.now) }
{
    let name = Value::try_from_str(alloc, name)?;
    with(alloc, Map::new(alloc), key, name)
}

/// The members with one more.
pub(crate) fn with(
    alloc: Global,
    mut members: Members,
    key: &str,
    value: Value,
) -> Result<Members, AllocError>
    ensures { IfOk result (λ more. members_view more.entries
        ≡ put key.now (view value) (members_view members.entries)) }
{
    serde_json::put(&mut members, alloc, key, value)?;
    Ok(members)
}

/// A text as a string.
pub(crate) fn text_value(alloc: Global, text: &Txt) -> Result<Value, AllocError>
    ensures value { IfOk result (λ value. view value ≡ string text.now) }
    ensures text { IsText text.now }
{
    match str::from_utf8(text.as_bytes()) {
        Ok(text) => Value::try_from_str(alloc, text),
        Err(_) => unreachable!(),
    }
}

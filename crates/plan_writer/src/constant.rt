//! Constants as JSON values.
ghost use Rattle.std.specs.Prelude.{◌≡◌, All, IfOk, OnOk};
ghost use Rattle.serde_json.specs.View.{view};
ghost use Rattle.exec_value.specs.Kinds.{IsConstant};
ghost use Rattle.plan_writer.specs.Held.{AreHeld, IsHeldDatum, IsRow};
ghost use Rattle.plan_writer.specs.Values.{constant_data, constants_data, row_data};

use crate::member::text_value;
use exec_value::{Data, Datum, Nums};
use serde_json::Value;
use std::alloc::{AllocError, Global};

/// Constants, in an array.
pub(crate) fn constants_value(alloc: Global, values: &Data) -> Result<Value, AllocError>
    requires { All IsConstant values.now }
    ensures value { IfOk result (λ value. view value ≡ constants_data values.now) }
    ensures held { OnOk result (AreHeld values.now) }
{
    let mut items = Vec::new(alloc);
    for datum in values.as_slice() {
        items.push(constant_value(alloc, datum)?)?;
    }
    Ok(Value::Array(items))
}

/// A constant.
fn constant_value(alloc: Global, datum: &Datum) -> Result<Value, AllocError>
    requires { IsConstant datum.now }
    ensures value { IfOk result (λ value. view value ≡ constant_data datum.now) }
    ensures held { OnOk result (IsHeldDatum datum.now) }
{
    match datum {
        Datum::Int(number) => Ok(Value::from(*number)),
        Datum::Text(text) => text_value(alloc, text),
        Datum::Row(row) => row_value(alloc, row),
        _ => unreachable!(),
    }
}

/// The numbers of a row, in an array.
fn row_value(alloc: Global, row: &Nums) -> Result<Value, AllocError>
    ensures value { IfOk result (λ value. view value ≡ row_data row.now) }
    ensures held { OnOk result (IsRow row.now) }
{
    let mut items = Vec::new(alloc);
    for number in row.as_slice() {
        items.push(Value::from(*number))?;
    }
    Ok(Value::Array(items))
}

//! Constants: numbers, texts and rows of numbers. What isn't handed on is dropped by a call: at the
//! end of a scope each kind of data would be dropped in that place.
ghost use Rattle.std.specs.Prelude.{◌≡◌, ◌≤◌, All, IfOk, Some, vec_len};
ghost use Rattle.serde_json.specs.View.{view, items_view};
ghost use Rattle.exec_value.specs.Kinds.{IsConstant};
ghost use Rattle.exec_value.specs.declared.limits.TheConstants.{NUMBERS};
ghost use Rattle.plan_parts.specs.Reading.{IfGood, mapped};
ghost use Rattle.plan_parts.specs.Constants.{constant_of, constants_at, constants_of, row_of, text_datum, with_constant, with_datum, with_number};

use crate::reading::{FORM_FAULT, LIMIT_FAULT, Reading};
use crate::scalar::txt_of;
use exec_value::{DATA, Data, Datum, NUMBERS, Nums};
use serde_json::Value;
use std::alloc::{AllocError, Global};

/// The constants at a key: an array of at most 64.
pub fn constants_at(alloc: Global, value: &Value, key: &str) -> Result<Reading<Data>, AllocError>
    ensures value { IfOk result (λ reading. reading ≡ constants_at key.now (view value.now)) }
    ensures constants { IfOk result (λ reading. IfGood reading (All IsConstant)) }
{
    match value.get(key).and_then(Value::as_array) {
        Some(values) => constants_of(alloc, values),
        None => Ok(Reading::Bad(FORM_FAULT)),
    }
}

/// The constants that these values are.
fn constants_of(alloc: Global, values: &[Value]) -> Result<Reading<Data>, AllocError>
    ensures value { IfOk result (λ reading. reading ≡ constants_of (items_view values.now)) }
    ensures constants { IfOk result (λ reading. IfGood reading (All IsConstant)) }
{
    let mut found = Reading::Good(Data::empty(alloc));
    'values: for value in values {
        found = with_next(alloc, found, value)?;
    }
    Ok(found)
}

/// One value more.
fn with_next(
    alloc: Global,
    found: Reading<Data>,
    value: &Value,
) -> Result<Reading<Data>, AllocError>
    ensures { IfOk result
        (λ reading. reading ≡ with_constant found (constant_of (view value.now))) }
{
    match constant_of(alloc, value) {
        Ok(next) => with_constant(found, next),
        Err(fault) => {
            drop(found);
            Err(fault)
        }
    }
}

/// One constant more.
fn with_constant(found: Reading<Data>, next: Reading<Datum>) -> Result<Reading<Data>, AllocError>
    ensures { IfOk result (λ reading. reading ≡ with_constant found next) }
{
    match next {
        Reading::Good(datum) => with_datum(found, datum),
        Reading::Bad(faults) => Ok(found.blamed(faults)),
    }
}

/// One datum more.
fn with_datum(found: Reading<Data>, datum: Datum) -> Result<Reading<Data>, AllocError>
    ensures { IfOk result (λ reading. reading ≡ with_datum found datum) }
{
    match found {
        Reading::Good(values) => pushed(values, datum),
        Reading::Bad(faults) => {
            drop(datum);
            Ok(Reading::Bad(faults))
        }
    }
}

/// The data with one more, where there may be one.
fn pushed(mut values: Data, datum: Datum) -> Result<Reading<Data>, AllocError>
    ensures { IfOk result (λ reading. reading ≡ with_datum (Reading.Good values) datum) }
{
    if values.as_slice().len() >= DATA {
        drop(datum);
        drop(values);
        return Ok(Reading::Bad(LIMIT_FAULT));
    }
    match values.push(datum) {
        Ok(()) => Ok(Reading::Good(values)),
        Err(datum) => {
            drop(datum);
            drop(values);
            Err(AllocError)
        }
    }
}

/// The constant that a value is.
pub fn constant_of(alloc: Global, value: &Value) -> Result<Reading<Datum>, AllocError>
    ensures { IfOk result (λ reading. reading ≡ constant_of (view value.now)) }
{
    if let Some(number) = value.as_i64() {
        return Ok(Reading::Good(Datum::Int(number)));
    }
    if let Some(text) = value.as_str() {
        return text_datum(alloc, text);
    }
    match value.as_array() {
        Some(values) => row_of(alloc, values),
        None => Ok(Reading::Bad(FORM_FAULT)),
    }
}

/// A string as a constant.
fn text_datum(alloc: Global, text: &str) -> Result<Reading<Datum>, AllocError>
    ensures { IfOk result (λ reading. reading ≡ text_datum text.now) }
{
    match txt_of(alloc, text)? {
        Reading::Good(text) => Ok(Reading::Good(Datum::Text(text))),
        Reading::Bad(faults) => Ok(Reading::Bad(faults)),
    }
}

/// The row that these values are.
fn row_of(alloc: Global, values: &[Value]) -> Result<Reading<Datum>, AllocError>
    ensures { IfOk result (λ reading. reading ≡ row_of (items_view values.now)) }
{
    let mut found = Reading::Good(Vec::new(alloc));
    'values: for value in values {
        found = with_number(found, value.as_i64())?;
    }
    match found {
        Reading::Good(numbers) => Ok(Reading::Good(Datum::Row(Nums::from_vec(numbers)?))),
        Reading::Bad(faults) => Ok(Reading::Bad(faults)),
    }
}

/// One number more.
fn with_number(found: Reading<Vec<i64>>, next: Option<i64>) -> Result<Reading<Vec<i64>>, AllocError>
    ensures value { IfOk result (λ reading. mapped (λ v. v.items) reading
        ≡ with_number (mapped (λ v. v.items) found) next) }
    ensures few { IfOk result (λ reading. IfGood reading (λ v. vec_len v ≤ NUMBERS)) }
{
    match next {
        Some(number) => match found {
            Reading::Good(numbers) => extended(numbers, number),
            Reading::Bad(faults) => Ok(Reading::Bad(faults)),
        },
        None => Ok(found.blamed(FORM_FAULT)),
    }
}

/// The numbers with one more, where there may be one.
fn extended(mut numbers: Vec<i64>, number: i64) -> Result<Reading<Vec<i64>>, AllocError>
    ensures value { IfOk result (λ reading. mapped (λ v. v.items) reading
        ≡ with_number (Reading.Good numbers.items) (Some number)) }
    ensures few { IfOk result (λ reading. IfGood reading (λ v. vec_len v ≤ NUMBERS)) }
{
    if numbers.len() < NUMBERS {
        numbers.push(number)?;
        Ok(Reading::Good(numbers))
    } else {
        Ok(Reading::Bad(LIMIT_FAULT))
    }
}

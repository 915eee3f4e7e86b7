//! The exact sums of numbers.
ghost use Rattle.std.specs.Prelude.{◌≡◌, ◌*◌, ◌≤◌, length};
ghost use Rattle.exec_value.specs.Sum.{numbers_of, total, sum_of_data, IsWithin};
ghost use Rattle.exec_value.specs.declared.limits.TheConstants.{DATA, NUMBERS};

use crate::data::Datum;

/// The exact sum of all numbers of data: of ints, of ints that are held, and of rows.
pub fn sum_data(values: &[Datum]) -> i128
    requires { length values.now ≤ DATA }
    ensures exact { result ≡ sum_of_data values.now }
    ensures within { IsWithin (NUMBERS * length values.now) result }
{
    let mut sum = 0;
    for datum in values {
        sum += sum_datum(datum);
    }
    sum
}

/// The sum of the numbers of a datum.
fn sum_datum(datum: &Datum) -> i128
    ensures exact { result ≡ total (numbers_of datum.now) }
    ensures within { IsWithin NUMBERS result }
{
    match datum {
        Datum::Int(number) | Datum::SomeInt(number) => i128::from(*number),
        Datum::Row(row) => sum_row(row.as_slice()),
        Datum::Text(_) | Datum::SomeText(_) | Datum::Nothing => 0,
    }
}

/// The sum of a row's numbers.
fn sum_row(numbers: &[i64]) -> i128
    requires { length numbers.now ≤ NUMBERS }
    ensures exact { result ≡ total numbers.now }
    ensures within { IsWithin NUMBERS result }
{
    let mut sum = 0;
    for number in numbers {
        sum += i128::from(*number);
    }
    sum
}

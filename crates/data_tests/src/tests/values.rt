//! Worked examples of values. Which records are read, and as what, cases of the program tell:
//! tests/cases/values.json.
use exec_value::{
    Completion, Data, Datum, INLINE_BYTES, Kind, NUMBERS, Nums, Outcome, RecordFault, TEXT_BYTES,
    Txt, is_error_name, is_text,
};
use std::alloc::{AllocError, Global};
use std::fs;
use std::test::Fail;

#[test]
fn values_are_small(rt: HostRuntime) {
    assert!(rt; size_of::<Txt>() == 24);
    assert!(rt; size_of::<Datum>() == 32);
    assert!(rt; size_of::<Data>() == 40);
    assert!(rt; size_of::<Completion>() == 48);
    assert!(rt; size_of::<Outcome>() == 56);
}

#[test]
fn names_texts_and_kinds_are_told_apart(rt: HostRuntime) {
    assert!(rt; is_error_name(b"a-Z_0.9@1") && !is_error_name(b"a b"));
    assert!(rt; is_text("é".as_bytes()) && !is_text(&[0xff]));
    assert!(rt; Datum::Int(0).is_constant() && !Datum::Nothing.is_constant());
    assert!(rt; Datum::Nothing.is_of(Kind::MaybeText) && !Datum::Int(0).is_of(Kind::Row));
    assert!(rt; RecordFault::from(AllocError) == RecordFault::NoMemory);
}

/// How many pages of memory the process has.
fn pages(rt: &HostRuntime) -> Result<u64, Fail> {
    let sizes = fs::read_to_string(rt, "/proc/self/statm")?;
    let resident = sizes.as_str().split(' ').nth(1).ok_or("its second number")?;
    Ok(resident.parse::<u64>()?)
}

/// Whether the process has less than 5,000 pages more while there are so many copies of a value.
fn are_small<T: Clone + Drop>(rt: &HostRuntime, value: T, count: usize) -> Result<bool, Fail> {
    let before = pages(rt)?;
    let _copies = vec![in rt.alloc(); value; count]?;
    let after = pages(rt)?;
    Ok(after.saturating_sub(before) < 5_000)
}

// Numbers of their own would take 16,000 pages.
#[test]
fn the_copies_of_a_row_share_its_numbers(rt: HostRuntime) -> Result<(), Fail> {
    let row = Nums::from_vec(vec![in rt.alloc(); 1; NUMBERS]?)?;
    assert!(rt; are_small(&rt, row, 2_000)?);
    Ok(())
}

/// A text of one byte more than these.
fn one_more(alloc: Global, bytes: &[u8]) -> Result<Txt, Fail> {
    let mut text = Txt::from_bytes(alloc, bytes)?;
    if text.as_bytes().len() < TEXT_BYTES {
        text.append(&Txt::short(alloc, "y"))?;
    }
    Ok(text)
}

// Bytes of their own would take 10,000 pages, and 8,800 with the texts' own where one is just too
// long to stand in place.
#[test]
fn the_copies_of_a_long_text_share_its_bytes(rt: HostRuntime) -> Result<(), Fail> {
    let alloc = rt.alloc();
    for (length, count) in [(TEXT_BYTES - 1, 10_000), (INLINE_BYTES, 500_000)] {
        let text = one_more(alloc, &vec![in alloc; b'x'; length]?)?;
        assert!(rt; are_small(&rt, text, count)?, "of {length} bytes and one");
    }
    Ok(())
}

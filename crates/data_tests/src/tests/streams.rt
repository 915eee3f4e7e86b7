//! Sources, sinks and shelves in memory, of which a call fails.
use exec_io::{
    Failed, MemShelf, MemSink, MemSource, NeverFails, Shelf, ShelfFault, Sink, Source, put_bytes,
};
use std::test::Fail;

/// One read of up to four bytes, with zeros behind them.
fn read_four<S: Source>(source: &mut S) -> Result<[u8; 4], Failed> {
    let mut buf = [0; 4];
    source.read(&mut buf)?;
    Ok(buf)
}

/// Whether a text was read, and is this.
fn has(read: Result<Vec<u8>, ShelfFault>, text: &[u8]) -> bool {
    match read {
        Ok(found) => found.as_slice() == text,
        Err(_) => false,
    }
}

#[test]
fn a_front_is_written_where_a_write_fails(rt: HostRuntime) -> Result<(), Fail> {
    let alloc = rt.alloc();
    let mut sink = MemSink::new(alloc, 1, vec![in alloc; 3]?);
    assert!(rt; put_bytes(b"1 value 6\n", &mut sink) == Err(Failed));
    assert!(rt; sink.bytes() == b"1 ".as_slice());
    assert!(rt; put_bytes(b"xy", &mut sink) == Ok(()));
    assert!(rt; sink.bytes() == b"1 xy".as_slice());
    Ok(())
}

#[test]
fn a_finish_is_numbered_with_the_writes(rt: HostRuntime) -> Result<(), Fail> {
    let alloc = rt.alloc();
    let mut sink = MemSink::new(alloc, 64, vec![in alloc; 2]?);
    assert!(rt; sink.write(b"ab") == Ok(2));
    assert!(rt; sink.finish() == Err(Failed));
    assert!(rt; sink.finish() == Ok(()));
    assert!(rt; sink.bytes() == b"ab".as_slice());
    Ok(())
}

#[test]
fn a_sink_that_takes_nothing_fails(rt: HostRuntime) -> Result<(), Fail> {
    let mut sink = MemSink::new(rt.alloc(), 0, Vec::new(rt.alloc()));
    assert!(rt; sink.write(b"a") == Err(Failed));
    assert!(rt; sink.finish() == Ok(()));
    Ok(())
}

#[test]
fn a_source_that_failed_consumed_nothing(rt: HostRuntime) -> Result<(), Fail> {
    let alloc = rt.alloc();
    let mut source = MemSource::new(b"5\n-1\n7".to_vec(alloc)?, vec![in alloc; 2]?);
    assert!(rt; read_four(&mut source) == Ok(*b"5\n-1"));
    assert!(rt; read_four(&mut source) == Err(Failed));
    assert!(rt; read_four(&mut source) == Ok(*b"\n7\0\0"));
    assert!(rt; read_four(&mut source) == Ok([0; 4]));
    Ok(())
}

#[test]
fn a_shelf_gives_a_text_and_one_byte_past_the_maximum(rt: HostRuntime) -> Result<(), Fail> {
    let alloc = rt.alloc();
    let failing = vec![in alloc; 2]?;
    let names = vec![in alloc; String::from_str(alloc, "a")?]?;
    let texts = vec![in alloc; b"hello".to_vec(alloc)?]?;
    let mut shelf = MemShelf::new(names, texts, failing);
    assert!(rt; has(shelf.read(alloc, "a", 3), b"hell"));
    assert!(rt; shelf.read(alloc, "a", 9).err() == Some(ShelfFault::Failed));
    assert!(rt; shelf.read(alloc, "b", 9).err() == Some(ShelfFault::Failed));
    assert!(rt; has(shelf.read(alloc, "a", 5), b"hello"));
    Ok(())
}

#[test]
fn no_read_of_a_source_that_never_fails_fails(rt: HostRuntime) -> Result<(), Fail> {
    let alloc = rt.alloc();
    let mut source = NeverFails::new(MemSource::new(b"ab".to_vec(alloc)?, Vec::new(alloc)));
    assert!(rt; read_four(&mut source) == Ok(*b"ab\0\0"));
    assert!(rt; read_four(&mut source) == Ok([0; 4]));
    Ok(())
}

#[test]
fn no_write_to_a_sink_that_never_fails_fails(rt: HostRuntime) {
    let alloc = rt.alloc();
    let mut sink = NeverFails::new(MemSink::new(alloc, 2, Vec::new(alloc)));
    assert!(rt; put_bytes(b"hello", &mut sink) == Ok(()));
    assert!(rt; sink.finish() == Ok(()));
    assert!(rt; sink.inner().bytes() == b"hello".as_slice());
}

#[test]
fn a_fault_says_what_failed(rt: HostRuntime) -> Result<(), Fail> {
    let alloc = rt.alloc();
    assert!(rt; Failed.to_string(alloc)?.as_str() == "the read or write failed");
    let unread = ShelfFault::Failed.to_string(alloc)?;
    assert!(rt; unread.as_str() == "the text can't be read");
    let no_memory = ShelfFault::NoMemory.to_string(alloc)?;
    assert!(rt; no_memory.as_str() == "no memory for the text");
    Ok(())
}

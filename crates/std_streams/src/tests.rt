use crate::shelf::read_front;
use crate::sink::Writing;
use crate::source::Reading;
use exec_io::{Failed, Sink, Source};
use std::io;
use std::io::{Read, Write};
use std::test::Fail;

/// A stream of which each read fails, and of which each write takes nothing.
#[derive(Drop)]
struct Broken;

impl Read for Broken {
    fn read(&mut self, _buf: &mut [u8]) -> io::Result<usize> {
        Err(io::Error::from(io::ErrorKind::BrokenPipe))
    }
}

impl Write for Broken {
    fn write(&mut self, _buf: &[u8]) -> io::Result<usize> {
        Ok(0)
    }

    fn flush(&mut self) -> io::Result<()> {
        Err(io::Error::from(io::ErrorKind::BrokenPipe))
    }
}

#[test]
fn a_reader_gives_its_bytes_and_then_the_end(rt: HostRuntime) {
    let mut source = Reading::new("ab".as_bytes());
    let mut buf = [0; 4];
    assert_eq!(rt; source.read(&mut buf), Ok(2));
    assert_eq!(rt; buf.as_slice(), "ab\0\0".as_bytes());
    assert_eq!(rt; source.read(&mut buf), Ok(0));
    assert_eq!(rt; Reading::new(Broken).read(&mut buf), Err(Failed));
}

#[test]
fn a_writer_that_takes_nothing_has_failed(rt: HostRuntime) -> Result<(), Fail> {
    let mut sink = Writing::new(Vec::new(rt.alloc()));
    assert_eq!(rt; sink.write(b"ab"), Ok(2));
    assert_eq!(rt; sink.finish(), Ok(()));
    assert_eq!(rt; sink.into_inner().as_slice(), "ab".as_bytes());

    let mut broken = Writing::new(Broken);
    assert_eq!(rt; broken.write(b"ab"), Err(Failed));
    assert_eq!(rt; broken.finish(), Err(Failed));
    Ok(())
}

#[test]
fn no_more_is_read_of_a_text_than_was_asked_for(rt: HostRuntime) -> Result<(), Fail> {
    let alloc = rt.alloc();
    assert_eq!(rt;
        read_front(alloc, "hello".as_bytes(), 4)?.as_slice(),
        "hell".as_bytes()
    );
    assert_eq!(rt;
        read_front(alloc, "hello".as_bytes(), 9)?.as_slice(),
        "hello".as_bytes()
    );
    let endless = read_front(alloc, io::repeat(b'x'), 3)?;
    assert_eq!(rt; endless.as_slice(), "xxx".as_bytes());
    assert!(rt; read_front(alloc, Broken, 1).is_err());
    Ok(())
}

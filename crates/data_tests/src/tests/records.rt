//! Streams in pieces, and their lines.
ghost use Rattle.std.specs.Prelude.{◌<◌};

use record_lines::{Cutter, MOST_LINE};
use std::alloc::{AllocError, Global};
use std::test::Fail;

// Adds a line in brackets, or `!` for one that is too long.
fn show(out: &mut Vec<u8>, text: Option<&[u8]>) -> Result<(), AllocError> {
    let Some(text) = text else {
        out.push(b'!')?;
        return Ok(());
    };
    out.push(b'[')?;
    out.extend_from_slice(text)?;
    out.push(b']')?;
    Ok(())
}

// The lines of a stream that is taken in pieces of this size. A cutter that has finished begins
// another stream.
fn shown(
    alloc: Global,
    cutter: &mut Cutter,
    stream: &[u8],
    size: usize,
) -> Result<Vec<u8>, AllocError>
    requires { 0 < size }
{
    let mut out = Vec::new(alloc);
    for piece in stream.chunks(size) {
        let mut left = piece;
        'lines: while let Some(end) = cutter.take(left) {
            show(&mut out, cutter.text(&end))?;
            left = end.rest;
        }
    }
    if let Some(end) = cutter.finish() {
        show(&mut out, cutter.text(&end))?;
    }
    Ok(out)
}

#[test]
fn pieces_of_every_size_give_the_same_lines(rt: HostRuntime) -> Result<(), Fail> {
    let streams: [(&[u8], &[u8]); 10] = [
        (b"", b""),
        (b"5\n-1\n", b"[5][-1]"),
        (b"5\r\n", b"[5]"),
        (b"5\n\n6", b"[5][][6]"),
        (b"\n", b"[]"),
        (b"\r", b"[]"),
        (b"7\n\r", b"[7][]"),
        (b"7\r", b"[7]"),
        (b"7\r\r\n", b"[7\r]"),
        (b"a\rb\nc", b"[a\rb][c]"),
    ];
    let mut cutter = Cutter::new(rt.alloc())?;
    for (stream, lines) in streams {
        for size in 1..8 {
            let found = shown(rt.alloc(), &mut cutter, stream, size)?;
            assert!(rt; found.as_slice() == lines, "{stream:?} in pieces of {size}");
        }
    }
    Ok(())
}

#[test]
fn a_line_of_131072_bytes_is_the_longest_record(rt: HostRuntime) -> Result<(), Fail> {
    let mut cutter = Cutter::new(rt.alloc())?;
    for (length, is_short) in [(131_072, true), (131_073, false)] {
        let mut stream = vec![in rt.alloc(); b'7'; length]?;
        stream.extend_from_slice(b"\r\n8")?;
        for size in [4_096, 131_073, 500_000] {
            let found = shown(rt.alloc(), &mut cutter, stream.as_slice(), size)?;
            assert!(rt; found.len() == if is_short { MOST_LINE + 5 } else { 4 });
        }
    }
    Ok(())
}

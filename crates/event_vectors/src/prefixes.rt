//! A stream that breaks off starts over at CAN and at ESC, after each of its prefixes.

use crate::feed::{Text, feed_new};
use crate::vectors::{LinesVector, tables};
use std::process::Abort;
use std::test::Fail;
use test_lines::{EventLines, Stop};

/// Streams of at most this many bytes are broken off at every place.
const BROKEN_OFF: usize = 64;

/// Returns the lines of a stream in two chunks.
fn lines_of(
    rt: &(impl Abort + AllocGlobal),
    size: usize,
    prefix: &[u8],
    back: &[u8],
) -> Result<EventLines, Fail> {
    let mut lines = EventLines::new(rt.alloc(), Stop::Never);
    assert!(rt;
        feed_new(size, &mut lines, Text::Characters, &[prefix, back]),
        "no parser has the buffer size {size}"
    );
    Ok(lines)
}

/// Checks that `prefix` and `back` give what `prefix` and `start` give, followed by `line`.
fn assert_resyncs(
    rt: &(impl Abort + AllocGlobal),
    size: usize,
    prefix: &[u8],
    [start, back]: [&[u8]; 2],
    line: &str,
) -> Result<(), Fail> {
    let begun = lines_of(rt, size, prefix, start)?;
    let mut want = String::from_str(rt.alloc(), begun.text().unwrap_or("refused"))?;
    want.push_str(line)?;
    let whole = lines_of(rt, size, prefix, back)?;
    assert_eq!(rt; whole.text(), Some(want.as_str()), "{prefix:?}");
    Ok(())
}

fn assert_prefixes(rt: &(impl Abort + AllocGlobal), vector: &LinesVector) -> Result<(), Fail> {
    let bytes = vector.bytes(rt.alloc())?;
    if bytes.len() > BROKEN_OFF {
        return Ok(());
    }
    for end in 0..=bytes.len() {
        let (prefix, _) = bytes.split_at(end);
        assert_resyncs(rt, vector.size, prefix, [b"\x18", b"\x18z"], "print 007a\n")?;
        assert_resyncs(
            rt,
            vector.size,
            prefix,
            [b"\x1b", b"\x1bc"],
            "esc - false 63\n",
        )?;
    }
    Ok(())
}

fn assert_prefixes_of_vectors(
    rt: &(impl Abort + AllocGlobal),
    vectors: &[LinesVector],
) -> Result<(), Fail> {
    for vector in vectors {
        assert_prefixes(rt, vector)?;
    }
    Ok(())
}

#[test]
fn each_prefix_and_a_new_beginning(rt: HostRuntime) -> Result<(), Fail> {
    for table in tables() {
        assert_prefixes_of_vectors(&rt, table)?;
    }
    Ok(())
}

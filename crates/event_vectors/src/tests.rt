//! The vectors: whole, byte by byte, and cut at every place.

use crate::feed::{Text, feed_new, feed_saved};
use crate::vectors::{self, LinesVector, RepeatedBytes, RepeatedText};
use std::alloc::{AllocError, Global};
use std::process::Abort;
use std::test::Fail;
use test_lines::{EventLines, Stop};

/// Streams of at most this many bytes are cut at every place.
const CUT_EVERYWHERE: usize = 2048;

/// Checks that, however `bytes` are cut, the lines are `want`.
fn assert_lines(
    rt: &(impl Abort + AllocGlobal),
    name: &str,
    size: usize,
    text: Text,
    chunks: &[&[u8]],
    want: &str,
) -> Result<(), Fail> {
    let mut lines = EventLines::new(rt.alloc(), Stop::Never);
    assert!(rt;
        feed_new(size, &mut lines, text, chunks),
        "no parser has the buffer size of {name}"
    );
    assert_eq!(rt;
        lines.text(),
        Some(want),
        "{name}, in {} chunks",
        chunks.len()
    );
    Ok(())
}

/// Checks that a parser that is saved and restored between the chunks also gives `want`.
fn assert_saved_lines(
    rt: &(impl Abort + AllocGlobal),
    name: &str,
    chunks: &[&[u8]],
    want: &str,
) -> Result<(), Fail> {
    let mut lines = EventLines::new(rt.alloc(), Stop::Never);
    feed_saved(&mut lines, chunks);
    assert_eq!(rt;
        lines.text(),
        Some(want),
        "{name}, saved between {} chunks",
        chunks.len()
    );
    Ok(())
}

fn assert_lines_at_each_cut(
    rt: &(impl Abort + AllocGlobal),
    name: &str,
    size: usize,
    text: Text,
    bytes: &[u8],
    want: &str,
) -> Result<(), Fail> {
    assert_lines(rt, name, size, text, &[bytes], want)?;
    let each_byte: Vec<&[u8]> = bytes.chunks(1).collect(rt.alloc())?;
    assert_lines(rt, name, size, text, each_byte.as_slice(), want)?;
    if bytes.len() <= CUT_EVERYWHERE {
        for cut in 0..=bytes.len() {
            let (front, back) = bytes.split_at(cut);
            assert_lines(rt, name, size, text, &[front, back], want)?;
        }
    }
    Ok(())
}

fn assert_vector(
    rt: &(impl Abort + AllocGlobal),
    vector: &LinesVector,
    text: Text,
) -> Result<(), Fail> {
    let want = vector.text(rt.alloc())?;
    let want = want.as_str();
    assert_lines(rt, vector.name, vector.size, text, vector.chunks, want)?;
    let bytes = vector.bytes(rt.alloc())?;
    assert_lines_at_each_cut(rt, vector.name, vector.size, text, bytes.as_slice(), want)
}

fn assert_vector_when_saved(
    rt: &(impl Abort + AllocGlobal),
    vector: &LinesVector,
) -> Result<(), Fail> {
    // Only a parser of this size can be saved.
    if vector.size != vectors::DEFAULT_SIZE {
        return Ok(());
    }
    let want = vector.text(rt.alloc())?;
    let bytes = vector.bytes(rt.alloc())?;
    let each_byte: Vec<&[u8]> = bytes.as_slice().chunks(1).collect(rt.alloc())?;
    assert_saved_lines(rt, vector.name, vector.chunks, want.as_str())?;
    assert_saved_lines(rt, vector.name, each_byte.as_slice(), want.as_str())
}

fn assert_vectors(rt: &(impl Abort + AllocGlobal), vectors: &[LinesVector]) -> Result<(), Fail> {
    for vector in vectors {
        assert_vector(rt, vector, Text::Characters)?;
        assert_vector_when_saved(rt, vector)?;
    }
    Ok(())
}

fn assert_vectors_in_runs(
    rt: &(impl Abort + AllocGlobal),
    vectors: &[LinesVector],
) -> Result<(), Fail> {
    for vector in vectors {
        assert_vector(rt, vector, Text::Runs)?;
        assert_vector(rt, vector, Text::InTurn)?;
    }
    Ok(())
}

#[test]
fn vectors_by_characters(rt: HostRuntime) -> Result<(), Fail> {
    for table in vectors::tables() {
        assert_vectors(&rt, table)?;
    }
    Ok(())
}

#[test]
fn vectors_in_runs(rt: HostRuntime) -> Result<(), Fail> {
    for table in vectors::tables() {
        assert_vectors_in_runs(&rt, table)?;
    }
    Ok(())
}

/// Streams of at most this many bytes are cut in every way.
const CUT_IN_EVERY_WAY: u32 = 12;

/// Returns the chunks of a stream that is cut after byte `index` if bit `index` of `cuts` is set.
fn cut<'a>(alloc: Global, bytes: &'a [u8], cuts: u32) -> Result<Vec<&'a [u8]>, AllocError> {
    let mut chunks = Vec::new(alloc);
    let mut rest = bytes;
    let mut length = 0usize;
    for index in 0..CUT_IN_EVERY_WAY {
        length = length.saturating_add(1);
        if cuts >> index & 1 == 1 {
            let (chunk, back) = rest.split_at(length.min(rest.len()));
            chunks.push(chunk)?;
            rest = back;
            length = 0;
        }
    }
    chunks.push(rest)?;
    Ok(chunks)
}

fn assert_lines_at_each_set_of_cuts(
    rt: &(impl Abort + AllocGlobal),
    vector: &LinesVector,
    text: Text,
) -> Result<(), Fail> {
    let bytes = vector.bytes(rt.alloc())?;
    let want = vector.text(rt.alloc())?;
    if bytes.len() > CUT_IN_EVERY_WAY as usize {
        return Ok(());
    }
    // The cut after the last byte is made twice, with an empty chunk and without.
    for cuts in 0..1u32 << bytes.len() {
        let chunks = cut(rt.alloc(), bytes.as_slice(), cuts)?;
        assert_lines(
            rt,
            vector.name,
            vector.size,
            text,
            chunks.as_slice(),
            want.as_str(),
        )?;
    }
    Ok(())
}

fn assert_vectors_at_each_set_of_cuts(
    rt: &(impl Abort + AllocGlobal),
    vectors: &[LinesVector],
    text: Text,
) -> Result<(), Fail> {
    for vector in vectors {
        assert_lines_at_each_set_of_cuts(rt, vector, text)?;
    }
    Ok(())
}

#[test]
fn every_set_of_cuts(rt: HostRuntime) -> Result<(), Fail> {
    for table in vectors::tables() {
        assert_vectors_at_each_set_of_cuts(&rt, table, Text::Characters)?;
    }
    Ok(())
}

#[test]
fn every_set_of_cuts_in_runs(rt: HostRuntime) -> Result<(), Fail> {
    for table in vectors::tables() {
        assert_vectors_at_each_set_of_cuts(&rt, table, Text::Runs)?;
    }
    Ok(())
}

pub(crate) fn repeated_bytes(alloc: Global, parts: &RepeatedBytes) -> Result<Vec<u8>, AllocError> {
    let mut bytes = Vec::new(alloc);
    bytes.extend_from_slice(parts.front)?;
    for _ in 0..parts.times {
        bytes.extend_from_slice(parts.unit)?;
    }
    bytes.extend_from_slice(parts.back)?;
    Ok(bytes)
}

pub(crate) fn repeated_text(alloc: Global, parts: &RepeatedText) -> Result<String, AllocError> {
    let mut text = String::from_str(alloc, parts.front)?;
    for _ in 0..parts.times {
        text.push_str(parts.unit)?;
    }
    text.push_str(parts.back)?;
    Ok(text)
}

fn assert_long_lines(rt: &(impl Abort + AllocGlobal), text: Text) -> Result<(), Fail> {
    for vector in &vectors::long::VECTORS {
        let bytes = repeated_bytes(rt.alloc(), &vector.bytes)?;
        let want = repeated_text(rt.alloc(), &vector.text)?;
        assert_lines_at_each_cut(
            rt,
            vector.name,
            vector.size,
            text,
            bytes.as_slice(),
            want.as_str(),
        )?;
    }
    Ok(())
}

#[test]
fn long_lines(rt: HostRuntime) -> Result<(), Fail> {
    assert_long_lines(&rt, Text::Characters)
}

#[test]
fn long_lines_in_runs(rt: HostRuntime) -> Result<(), Fail> {
    assert_long_lines(&rt, Text::Runs)
}

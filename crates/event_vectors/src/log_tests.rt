//! `run`, `run_text` and their performers: the vectors, and streams with their plain text.

mod devices;
mod flushes;

use self::devices::{AtMost, Chunks, Written};
use crate::tests::repeated_bytes;
use crate::vectors::{
    DEFAULT_SIZE, LinesVector, failing_reads, joined_lines, long_lines, plain, tables,
};
use event_log::{Device, Fault, Plain, Recorder, run, run_text};
use std::alloc::{AllocError, Global};
use std::process::Abort;
use std::test::Fail;
use vte_core::{LongParser, Parser, Perform};

/// What a run writes.
#[derive(Clone, Copy)]
enum What {
    Lines,
    Text,
}

fn each_byte<'a>(alloc: Global, bytes: &'a [u8]) -> Result<Vec<&'a [u8]>, AllocError> {
    bytes.chunks(1).collect(alloc)
}

fn run_for(what: What, reader: &mut Chunks<'_>, writer: &mut Written) -> Result<(), Fault> {
    match what {
        What::Lines => run(reader, writer),
        What::Text => run_text(reader, writer),
    }
}

/// Checks that a run over the chunks gives this result and writes this.
fn assert_run(
    rt: &(impl Abort + AllocGlobal),
    name: &str,
    what: What,
    mut reader: Chunks<'_>,
    want: Result<(), Fault>,
    written: &[u8],
) -> Result<(), Fail> {
    let mut writer = Written::new(rt.alloc(), None);
    assert_eq!(rt; run_for(what, &mut reader, &mut writer), want, "{name}");
    assert_eq!(rt; writer.bytes.as_slice(), written, "{name}");
    Ok(())
}

/// Checks that a run writes this if it reads the bytes at once, and if it reads them one by one.
fn assert_written(
    rt: &(impl Abort + AllocGlobal),
    name: &str,
    what: What,
    bytes: &[u8],
    written: &[u8],
) -> Result<(), Fail> {
    let whole = [bytes];
    assert_run(rt, name, what, Chunks::new(&whole, false), Ok(()), written)?;
    let each = each_byte(rt.alloc(), bytes)?;
    let reader = Chunks::new(each.as_slice(), false);
    assert_run(rt, name, what, reader, Ok(()), written)
}

fn assert_vectors(rt: &(impl Abort + AllocGlobal), vectors: &[LinesVector]) -> Result<(), Fail> {
    for vector in vectors {
        // The parser of a run has this size.
        if vector.size == DEFAULT_SIZE {
            let bytes = vector.bytes(rt.alloc())?;
            let text = vector.text(rt.alloc())?;
            let (bytes, text) = (bytes.as_slice(), text.as_bytes());
            assert_written(rt, vector.name, What::Lines, bytes, text)?;
        }
    }
    Ok(())
}

#[test]
fn lines_of_vectors(rt: HostRuntime) -> Result<(), Fail> {
    for table in tables() {
        assert_vectors(&rt, table)?;
    }
    Ok(())
}

#[test]
fn plain_vectors(rt: HostRuntime) -> Result<(), Fail> {
    for vector in &plain::VECTORS {
        assert_written(&rt, vector.name, What::Text, vector.bytes, vector.text)?;
    }
    Ok(())
}

#[test]
fn failing_read_vectors(rt: HostRuntime) -> Result<(), Fail> {
    for vector in &failing_reads::VECTORS {
        let reader = Chunks::new(vector.reads, true);
        let text = joined_lines(rt.alloc(), vector.lines)?;
        let want = Err(Fault::Read);
        assert_run(&rt, vector.name, What::Lines, reader, want, text.as_bytes())?;
    }
    Ok(())
}

#[test]
fn text_before_a_failing_read(rt: HostRuntime) -> Result<(), Fail> {
    let reader = Chunks::new(&[b"a\x1b[1", b"mb\n"], true);
    assert_run(&rt, "text", What::Text, reader, Err(Fault::Read), b"ab\n")
}

/// `a`, an escape sequence and LF.
const STREAM: [&[u8]; 3] = [b"a", b"\x1b(B", b"\n"];

const LINES: [&str; 3] = ["print 0061", "esc 28 false 42", "execute 0a"];

/// Checks that, whichever call of the writer fails, everything before that call is written.
fn assert_failing_calls(
    rt: &(impl Abort + AllocGlobal),
    what: What,
    written: &[u8],
) -> Result<(), Fail> {
    let mut writer = Written::new(rt.alloc(), None);
    assert_eq!(rt;
        run_for(what, &mut Chunks::new(&STREAM, false), &mut writer),
        Ok(())
    );
    assert_eq!(rt; writer.bytes.as_slice(), written);
    for failing_call in 0..writer.calls {
        let mut writer = Written::new(rt.alloc(), Some(failing_call));
        assert_eq!(rt;
            run_for(what, &mut Chunks::new(&STREAM, false), &mut writer),
            Err(Fault::Write)
        );
        assert!(rt; written.starts_with(writer.bytes.as_slice()));
    }
    Ok(())
}

#[test]
fn each_failing_call_of_a_writer(rt: HostRuntime) -> Result<(), Fail> {
    let lines = joined_lines(rt.alloc(), &LINES)?;
    assert_failing_calls(&rt, What::Lines, lines.as_bytes())?;
    assert_failing_calls(&rt, What::Text, b"a\n")
}

#[test]
fn recorder_stops_above_half(rt: HostRuntime) {
    let mut recorder = Recorder::new();
    let mut parser = Parser::<1024>::new();
    let count = parser.advance_until_terminated(&mut recorder, &[b'a'; 4096]);
    assert_eq!(rt; count, 373);
    assert_eq!(rt; recorder.bytes().len(), 4103);
    assert!(rt; !recorder.lost());
}

#[test]
fn run_goes_on_where_the_recorder_stopped(rt: HostRuntime) -> Result<(), Fail> {
    let lines = repeated(rt.alloc(), b"print 0061\n", 4096)?;
    assert_run(
        &rt,
        "4,096 times a",
        What::Lines,
        Chunks::new(&[&[b'a'; 4096]], false),
        Ok(()),
        lines.as_slice(),
    )
}

/// The recorder also stops at broken characters, and the last character of the chunk continues in
/// the next.
#[test]
fn run_goes_on_inside_a_character(rt: HostRuntime) -> Result<(), Fail> {
    let mut lines = repeated(rt.alloc(), b"print fffd\n", 4095)?;
    lines.extend_from_slice(b"print 4fff\n")?;
    assert_run(
        &rt,
        "4,096 times E4, and the rest of a character",
        What::Lines,
        Chunks::new(&[&[0xe4; 4096], b"\xbf\xbf"], false),
        Ok(()),
        lines.as_slice(),
    )
}

/// With 8,191 bytes held, a character of two bytes is dropped whole.
#[test]
fn plain_takes_no_part_of_a_character(rt: HostRuntime) {
    let mut plain = Plain::new();
    for _ in 0..8191 {
        plain.print('a');
    }
    plain.print('\u{e9}');
    assert!(rt; plain.lost());
    assert_eq!(rt; plain.bytes().len(), 8191);
    plain.execute(b'\n');
    assert_eq!(rt; plain.bytes().len(), 8192);
    plain.clear();
    assert!(rt; !plain.lost() && plain.bytes().is_empty());
}

/// A run that doesn't fit whole is taken character by character: next to 8,190 bytes, `a` and `c`
/// fit, and what has more bytes doesn't.
#[test]
fn plain_takes_a_run(rt: HostRuntime) {
    let mut plain = Plain::new();
    let mut parser = Parser::new();
    parser.advance_text(&mut plain, "a\u{e9}\u{20ac}\u{1f600}".as_bytes());
    assert_eq!(rt;
        plain.bytes(),
        b"a\xc3\xa9\xe2\x82\xac\xf0\x9f\x98\x80".as_slice()
    );
    for _ in 10..8190 {
        plain.print('b');
    }
    parser.advance_text(&mut plain, "a\u{e9}c\u{20ac}".as_bytes());
    assert!(rt; plain.lost());
    assert_eq!(rt; plain.bytes().len(), 8192);
    assert!(rt; plain.bytes().ends_with(b"bac"));
}

/// However much text the bytes give, in two full chunks of 4,096 bytes, none of it is lost.
#[test]
fn text_that_grows(rt: HostRuntime) -> Result<(), Fail> {
    let streams: [(&[u8], usize, &[u8], usize); 5] = [
        (b"a", 8192, b"a", 8192),
        (b"\xff", 8192, b"\xef\xbf\xbd", 8192),
        // Each FF breaks the character that E4 began, and is malformed itself.
        (b"\xe4\xff", 4096, b"\xef\xbf\xbd", 8192),
        // The last E4 is unfinished.
        (b"\xff\xe4", 4096, b"\xef\xbf\xbd", 8191),
        (b"\xf0\x9f\x98\x80", 2048, b"\xf0\x9f\x98\x80", 2048),
    ];
    for (unit, times, character, count) in streams {
        let stream = repeated(rt.alloc(), unit, times)?;
        let (first, second) = stream.split_at(stream.len() / 2);
        let text = repeated(rt.alloc(), character, count)?;
        let chunks = [first, second];
        let reader = Chunks::new(&chunks, false);
        assert_run(&rt, "grows", What::Text, reader, Ok(()), text.as_slice())?;
    }
    Ok(())
}

#[test]
fn long_line_vectors(rt: HostRuntime) -> Result<(), Fail> {
    for vector in &long_lines::VECTORS {
        let stream = repeated_bytes(rt.alloc(), &vector.stream)?;
        let mut recorder = Recorder::new();
        Parser::<1024>::new_with_size().advance(&mut recorder, stream.as_slice());
        assert_eq!(rt; recorder.bytes().len(), vector.bytes, "{}", vector.name);
        assert_eq!(rt; recorder.lost(), vector.lost, "{}", vector.name);
    }
    Ok(())
}

/// A line is kept whole or dropped, however long the command is.
#[test]
fn recorder_of_a_long_parser(rt: HostRuntime) -> Result<(), Fail> {
    for (times, bytes, lost) in [(4087, 8191, false), (4088, 0, true)] {
        let mut stream = b"\x1b]52;".to_vec(rt.alloc())?;
        stream.extend_from_slice(repeated(rt.alloc(), b"a", times)?.as_slice())?;
        stream.push(0x07)?;
        let mut recorder = Recorder::new();
        let read = LongParser::new(rt.alloc()).advance(&mut recorder, stream.as_slice());
        assert!(rt; read.is_ok());
        assert_eq!(rt; recorder.bytes().len(), bytes);
        assert_eq!(rt; recorder.lost(), lost);
    }
    Ok(())
}

/// Returns `times` copies of a unit.
fn repeated(alloc: Global, unit: &[u8], times: usize) -> Result<Vec<u8>, AllocError> {
    let mut bytes = Vec::new(alloc);
    for _ in 0..times {
        bytes.extend_from_slice(unit)?;
    }
    Ok(bytes)
}

/// A run flushes, a device passes that on, and it doesn't fail unless its writer does.
#[test]
fn writer_that_takes_one_byte_a_call(rt: HostRuntime) -> Result<(), Fail> {
    let mut writer = AtMost::new(rt.alloc(), 1);
    let mut reader = Chunks::new(&STREAM, false);
    let result = run(&mut reader, &mut Device::new(&mut writer));
    assert_eq!(rt; result, Ok(()));
    let lines = joined_lines(rt.alloc(), &LINES)?;
    assert_eq!(rt; writer.bytes.as_slice(), lines.as_bytes());

    let mut writer = AtMost::new(rt.alloc(), 1);
    let mut reader = Chunks::new(&STREAM, false);
    let result = run_text(&mut reader, &mut Device::new(&mut writer));
    assert_eq!(rt; result, Ok(()));
    assert_eq!(rt; writer.bytes.as_slice(), b"a\n".as_slice());
    Ok(())
}

/// A device fails where its writer does, in a flush too: ESC gives no line to write before it.
#[test]
fn writer_that_takes_nothing(rt: HostRuntime) -> Result<(), Fail> {
    for chunks in [&STREAM[..], &[b"\x1b"]] {
        let mut writer = AtMost::new(rt.alloc(), 0);
        let mut reader = Chunks::new(chunks, false);
        let result = run(&mut reader, &mut Device::new(&mut writer));
        assert_eq!(rt; result, Err(Fault::Write));
        assert!(rt; writer.bytes.is_empty());
    }
    Ok(())
}

//! Operating system commands without a limit, and refused memory.

ghost use Rattle.std.specs.Prelude.{◌<◌};

use crate::tests::{repeated_bytes, repeated_text};
use crate::vectors::{RepeatedBytes, RepeatedText};
use bumpalo::Bump;
use std::alloc::Allocator;
use std::process::Abort;
use std::test::Fail;
use test_lines::{EventLines, Stop};
use vte_core::{LongParser, Refused, Run, Taken};

/// A stream, and the lines of all its events.
struct UnlimitedVector {
    name: &'static str,
    bytes: RepeatedBytes,
    text: RepeatedText,
}

/// Streams whose events need memory.
static LONG_VECTORS: [UnlimitedVector; 2] = [
    UnlimitedVector {
        name: "OSC of 1,125 bytes",
        bytes: RepeatedBytes {
            front: b"\x1b]52;s",
            unit: b"a",
            times: 1124,
            back: b"\x07",
        },
        text: RepeatedText {
            front: "osc true 2 3532 73",
            unit: "61",
            times: 1124,
            back: "\n",
        },
    },
    UnlimitedVector {
        name: "clipboard of 100,000 bytes",
        bytes: RepeatedBytes {
            front: b"\x1b]52;",
            unit: b"a",
            times: 100_000,
            back: b"\x07",
        },
        text: RepeatedText {
            front: "osc true 2 3532 ",
            unit: "61",
            times: 100_000,
            back: "\n",
        },
    },
];

/// Streams whose events need none.
static SHORT_VECTORS: [UnlimitedVector; 2] = [
    UnlimitedVector {
        name: "bytes after the sixteenth separator",
        bytes: RepeatedBytes {
            front: b"\x1b];;;;;;;;;;;;;;;;",
            unit: b"a",
            times: 5_000,
            back: b"\x07",
        },
        text: RepeatedText {
            front: "osc true 16",
            unit: " -",
            times: 16,
            back: "\n",
        },
    },
    UnlimitedVector {
        name: "no OSC",
        bytes: RepeatedBytes {
            front: b"\x1b[1m",
            unit: b"a",
            times: 1,
            back: b"",
        },
        text: RepeatedText {
            front: "csi [1] - false 6d\n",
            unit: "print 0061\n",
            times: 1,
            back: "",
        },
    },
];

/// Checks that the parser reads all bytes. Tests call this and not `advance`, whose contract would
/// be opened by the proof of each.
fn assert_read<A: Allocator>(
    rt: &impl Abort,
    name: &str,
    parser: &mut LongParser<A>,
    lines: &mut EventLines,
    bytes: &[u8],
) {
    assert_eq!(rt; parser.advance(lines, bytes), Ok(()), "{name}");
}

/// Checks that the parser reads all chunks, and that they give this text.
fn assert_reads<A: Allocator>(
    rt: &(impl Abort + AllocGlobal),
    alloc: A,
    vector: &UnlimitedVector,
    size: usize,
) -> Result<(), Fail>
    requires { 0 < size }
{
    let bytes = repeated_bytes(rt.alloc(), &vector.bytes)?;
    let text = repeated_text(rt.alloc(), &vector.text)?;
    let mut parser = LongParser::new(alloc);
    let mut lines = EventLines::new(rt.alloc(), Stop::Never);
    for chunk in bytes.chunks(size) {
        assert_read(rt, vector.name, &mut parser, &mut lines, chunk);
    }
    assert_eq!(rt; lines.text(), Some(text.as_str()), "{}", vector.name);
    Ok(())
}

/// A command has all its data, whatever the chunks.
#[test]
fn commands_are_whole_with_memory(rt: HostRuntime) -> Result<(), Fail> {
    for vector in &LONG_VECTORS {
        for size in [1, 1000, 200_000] {
            assert_reads(&rt, rt.alloc(), vector, size)?;
        }
    }
    Ok(())
}

/// Data after the sixteenth separator aren't kept, and a control sequence keeps none.
#[test]
fn a_stream_without_kept_data_needs_no_memory(rt: HostRuntime) -> Result<(), Fail> {
    let none = Bump::new(rt.alloc());
    none.set_allocation_limit(Some(0));
    for vector in &SHORT_VECTORS {
        for size in [1, 200_000] {
            assert_reads(&rt, &none, vector, size)?;
        }
    }
    Ok(())
}

#[test]
fn first_growth_is_refused(rt: HostRuntime) {
    let memory = Bump::new(rt.alloc());
    memory.set_allocation_limit(Some(0));
    let mut parser = LongParser::new(&memory);
    let mut lines = EventLines::new(rt.alloc(), Stop::Never);
    assert_eq!(rt;
        parser.advance(&mut lines, b"\x1b]2;abc\x07"),
        Err(Refused { read: 2 })
    );
    assert_eq!(rt; lines.text(), Some(""));
    memory.set_allocation_limit(None);
    assert_read(&rt, "after it", &mut parser, &mut lines, b"2;abc\x07");
    assert_eq!(rt; lines.text(), Some("osc true 2 32 616263\n"));
}

/// Each growth is refused once, and then granted.
#[test]
fn each_growth_is_refused_in_turn(rt: HostRuntime) -> Result<(), Fail> {
    for vector in &LONG_VECTORS {
        let bytes = repeated_bytes(rt.alloc(), &vector.bytes)?;
        let text = repeated_text(rt.alloc(), &vector.text)?;
        let memory = Bump::new(rt.alloc());
        let mut parser = LongParser::new(&memory);
        let mut lines = EventLines::new(rt.alloc(), Stop::Never);
        let mut refusals = 0u32;
        for chunk in bytes.chunks(100) {
            memory.set_allocation_limit(Some(0));
            if let Err(refused) = parser.advance(&mut lines, chunk) {
                refusals = refusals.saturating_add(1);
                memory.set_allocation_limit(None);
                let rest = &chunk[refused.read..];
                assert_read(&rt, vector.name, &mut parser, &mut lines, rest);
            }
        }
        assert!(rt; refusals > 1, "{}", vector.name);
        assert_eq!(rt; lines.text(), Some(text.as_str()), "{}", vector.name);
    }
    Ok(())
}

/// Memory grows in proportion, so a command that arrives byte by byte isn't copied over and over.
#[test]
fn growths_are_few(rt: HostRuntime) -> Result<(), Fail> {
    for vector in &LONG_VECTORS {
        let bytes = repeated_bytes(rt.alloc(), &vector.bytes)?;
        let memory = Bump::new(rt.alloc());
        // The arena never frees, so the limit covers all blocks ever allocated.
        memory.set_allocation_limit(Some(bytes.len().saturating_mul(8)));
        assert_reads(&rt, &memory, vector, 1)?;
    }
    Ok(())
}

/// The memory of one command is reused for the next.
#[test]
fn a_second_command_needs_no_memory(rt: HostRuntime) -> Result<(), Fail> {
    for vector in &LONG_VECTORS {
        let bytes = repeated_bytes(rt.alloc(), &vector.bytes)?;
        let text = repeated_text(rt.alloc(), &vector.text)?;
        let memory = Bump::new(rt.alloc());
        let mut parser = LongParser::new(&memory);
        let mut lines = EventLines::new(rt.alloc(), Stop::Never);
        assert_read(&rt, vector.name, &mut parser, &mut lines, bytes.as_slice());
        // Use up the rest of the arena.
        let left = memory.chunk_capacity();
        let _filling = memory.try_alloc_slice_fill_clone(left, &0u8)?;
        memory.set_allocation_limit(Some(0));
        for size in [1, 1000, 200_000] {
            lines.clear();
            for chunk in bytes.chunks(size) {
                assert_read(&rt, vector.name, &mut parser, &mut lines, chunk);
            }
            assert_eq!(rt; lines.text(), Some(text.as_str()), "{}", vector.name);
        }
    }
    Ok(())
}

/// What a command took is free for the next as soon as it has ended.
#[test]
fn an_ended_command_needs_no_memory(rt: HostRuntime) -> Result<(), Fail> {
    for vector in &LONG_VECTORS {
        let bytes = repeated_bytes(rt.alloc(), &vector.bytes)?;
        let mut parser = LongParser::new(rt.alloc());
        let mut lines = EventLines::new(rt.alloc(), Stop::Never);
        assert_read(&rt, vector.name, &mut parser, &mut lines, bytes.as_slice());
        let memory = parser.memory();
        for more in [1000, memory] {
            assert!(rt; parser.reserve(more), "{}", vector.name);
            assert_eq!(rt; parser.memory(), memory, "{}", vector.name);
        }
    }
    Ok(())
}

/// The bytes of an open command stay, and memory is reserved beside them.
#[test]
fn an_open_command_keeps_its_bytes(rt: HostRuntime) -> Result<(), Fail> {
    for vector in &LONG_VECTORS {
        let bytes = repeated_bytes(rt.alloc(), &vector.bytes)?;
        let text = repeated_text(rt.alloc(), &vector.text)?;
        let mut parser = LongParser::new(rt.alloc());
        let mut lines = EventLines::new(rt.alloc(), Stop::Never);
        for byte in bytes.chunks(1) {
            assert_read(&rt, vector.name, &mut parser, &mut lines, byte);
            assert!(rt; parser.reserve(1000), "{}", vector.name);
        }
        assert_eq!(rt; lines.text(), Some(text.as_str()), "{}", vector.name);
        assert!(rt; parser.reserve(parser.memory()), "{}", vector.name);
    }
    Ok(())
}

/// A caller takes text from its own input, and what is before it is performed.
#[test]
fn text_is_taken_from_the_input(rt: HostRuntime) {
    let mut parser = LongParser::new(rt.alloc());
    let mut lines = EventLines::new(rt.alloc(), Stop::Never);
    let run = Run {
        start: 8,
        end: 15,
        taken: Taken::Text("na\u{ef}ve "),
    };
    assert_eq!(rt;
        parser.advance_to_run(&mut lines, b"\x1b]2;abc\x07na\xc3\xafve \r"),
        Ok(run)
    );
    assert_eq!(rt; lines.text(), Some("osc true 2 32 616263\n"));
}

/// No run is a control, a malformed sequence or an unfinished character, nor inside a character or
/// a sequence.
#[test]
fn no_text_is_taken(rt: HostRuntime) {
    for bytes in [
        b"\n".as_slice(),
        b"\xff",
        b"\xc3",
        b"\xc2\x85",
        b"",
        b"\x1b[1",
        b"\x1bP",
        b"\x1b]2;a",
        b"\x1b_a",
    ] {
        let mut parser = LongParser::new(rt.alloc());
        let mut lines = EventLines::new(rt.alloc(), Stop::Never);
        let none = Run {
            start: bytes.len(),
            end: bytes.len(),
            taken: Taken::Nothing,
        };
        assert_eq!(rt; parser.advance_to_run(&mut lines, bytes), Ok(none));
    }
}

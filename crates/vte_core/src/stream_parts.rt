//! Parts of a stream that can be read side by side.
ghost use Rattle.std.specs.Prelude.{Option, ℕ, ◌≡◌};
ghost use Rattle.vte_core.specs.Parts.{GiveEvents, parts_of};

pub(crate) mod iter;

use iter::Parts;

/// Divides a stream into parts that can be read side by side, as by threads.
///
/// The events of the parts, each read by a new parser, are one after another those of the stream.
/// So are their texts, but not the calls of a processor.
///
/// Each part but the last has more than `size` bytes, and at least two. It ends with the first ESC
/// after these, with which the next part starts: so what is open there is closed, such as a
/// truncated character. The last part ends with the stream. An empty stream has no parts.
///
/// Where no ESC is near, a part is larger. A stream without ESC is a single part: it is plain text,
/// which can be cut after any byte below 80 instead.
///
/// ```
/// # use vte::parts;
/// let mut parts = parts(b"one \x1b[1mtwo \x1b[mthree", 6);
/// assert_eq!(parts.next(), Some(&b"one \x1b[1mtwo \x1b"[..]));
/// assert_eq!(parts.next(), Some(&b"\x1b[mthree"[..]));
/// assert_eq!(parts.next(), None);
/// ```
#[tactic(auto, using(crate::proofs::lemmas::streams::Parts::parts_of_events))]
pub fn parts(stream: &[u8], size: usize) -> Parts<'_>
    ensures value { result ≡ parts_of size stream.now }
    ensures events { (limit : Option ℕ) → GiveEvents limit result stream.now }
{
    Parts::new(stream, size.max(1))
}

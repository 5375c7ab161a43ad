//! Texts that are joined from pieces.
ghost use Rattle.std.specs.Prelude.{length, map, option_map, ◌++◌, ◌+◌, ◌≡◌, ◌≤◌};
ghost use Rattle.vte.specs.CommandCalls.{joined_texts, text_in};
ghost use Rattle.vte.specs.private.JoinedTexts.{FitsTextCapacity, text_to_join};

use crate::ansi::calls::text_buffer::TextBuffer;

/// How many bytes longer than its pieces a joined text may be: a `;` for each of 16 pieces. It has
/// at most 15, but `push_part` requires room for one per piece.
pub(crate) const SEPARATORS: usize = 16;

/// The size of the buffer for a joined text of 1,024 bytes.
// cargo lacks: not used
pub(crate) const TEXT_CAPACITY: usize = 1024 + SEPARATORS;

/// What becomes of a piece that isn't UTF-8.
#[derive(Clone, Copy)]
pub(crate) enum MalformedPiece {
    /// It is left out, as in a title.
    LeftOut,
    /// It counts as empty, as in a link.
    Empty,
}

/// Joins pieces with `;` between them.
pub(crate) fn join_texts<B: TextBuffer>(text: &mut B, pieces: &[&[u8]], malformed: MalformedPiece)
    requires { FitsTextCapacity (B.text_capacity text.old) (map (λ piece. piece.now) pieces.now) }
    ensures joined { B.stored text.new
        ≡ joined_texts malformed (map (λ piece. piece.now) pieces.now) }
    ensures same_capacity { B.text_capacity text.new ≡ B.text_capacity text.old }
{
    text.clear();
    let mut is_first = true;
    for piece in pieces {
        if let Some(part) = text_in(piece, malformed) {
            push_part(text, is_first, part);
            is_first = false;
        }
    }
}

/// Appends a text to those before it, after a `;` unless it is the first.
fn push_part<B: TextBuffer>(text: &mut B, is_first: bool, part: &str)
    requires { length (B.stored text.old) + length part.now + 1 ≤ B.text_capacity text.old }
    ensures pushed { B.stored text.new ≡ B.stored text.old ++ text_to_join is_first part.now }
    ensures same_capacity { B.text_capacity text.new ≡ B.text_capacity text.old }
{
    if !is_first {
        text.push(';');
    }
    text.push_str(part);
}

/// Returns the text of a piece, or `None` if it is left out.
#[tactic(auto, using(crate::proofs::lemmas::calls::JoinedTexts::is_text, crate::proofs::lemmas::calls::JoinedTexts::no_utf8))]
pub(crate) fn text_in(piece: &[u8], malformed: MalformedPiece) -> Option<&str>
    ensures { option_map (λ text. text.now) result ≡ text_in malformed piece.now }
{
    let text = str::from_utf8(piece).ok();
    match malformed {
        MalformedPiece::LeftOut => text,
        MalformedPiece::Empty => text.or(Some("")),
    }
}

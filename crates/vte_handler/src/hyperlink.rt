//! Links.

/// A link of the characters that follow (OSC 8).
///
/// Characters with the same URI and the same id belong to one link, wherever they are. Without an
/// id, each link is separate.
#[derive(Debug, Eq, PartialEq, Hash, Drop)]
// cargo: #[derive(Clone, Copy)]
pub struct Hyperlink<'a> {
    /// Distinguishes links with the same URI.
    pub id: Option<&'a str>,
    /// The URI, which is never empty.
    pub uri: &'a str,
}

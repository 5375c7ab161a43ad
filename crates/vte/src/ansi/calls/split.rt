//! Prefixes of texts, and texts between separators.
ghost use Rattle.std.specs.Prelude.{codes, IfSome, length, option_map, ◌<◌, ◌∷◌, ◌≡◌};
ghost use Rattle.vte.specs.private.JoinedTexts.{parts_left};
ghost use Rattle.vte.specs.Split.{first_after, split_by};
ghost use Rattle.vte_types.specs.Words.{after_word};

use vte_types::laws;

/// Returns what follows a word at the start of the text, or `None` if the text doesn't start with
/// it.
pub(crate) fn strip_word<'a>(text: &'a [u8], word: &[u8]) -> Option<&'a [u8]>
    ensures { option_map (λ rest. rest.now) result ≡ after_word word.now text.now }
{
    laws::words_are_prefixes();
    text.strip_prefix(word)
}

/// Splits a text at its first separator. Returns what is before the separator, and what follows it
/// if there is one.
pub(crate) fn split_at_first(text: &[u8], separator: u8) -> (&[u8], Option<&[u8]>)
    ensures parts { split_by separator text.now ≡ result.0.now ∷ parts_left separator result.1 }
    ensures shorter { IfSome result.1 (λ rest. length rest.now < length text.now) }
{
    match text.iter().position(|byte| *byte == separator) {
        Some(position) => (&text[..position], Some(&text[position + 1..])),
        None => (text, None),
    }
}

/// Returns what follows `id=` in the first parameter of a link that starts with it.
pub(crate) fn find_link_id(parameters: &[u8]) -> Option<&[u8]>
    ensures { option_map (λ rest. rest.now) result
        ≡ first_after (codes "id=") (split_by 0x3a parameters.now) }
{
    let mut left = Some(parameters);
    while let Some(text) = left {
        let (part, rest) = split_at_first(text, b':');
        let id = strip_word(part, b"id=");
        if id.is_some() {
            return id;
        }
        left = rest;
    }
    None
}

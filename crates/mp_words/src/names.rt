//! The names of the options.

ghost use Rattle.std.specs.Prelude.{◌≡◌};
ghost use Rattle.mp_words.specs.Names.{name_of};

use mp_bytes::same_text;

#[derive(Clone, Copy)]
pub(crate) enum Name {
    Window,
    Scale,
    Tile,
    Workers,
    Generate,
    Count,
}

/// The option that a word names.
pub(crate) fn name_of(word: &[u8]) -> Option<Name>
    ensures { result ≡ name_of word.now }
{
    if same_text(word, b"--window") {
        Some(Name::Window)
    } else if same_text(word, b"--scale") {
        Some(Name::Scale)
    } else if same_text(word, b"--tile") {
        Some(Name::Tile)
    } else if same_text(word, b"--workers") {
        Some(Name::Workers)
    } else if same_text(word, b"--generate") {
        Some(Name::Generate)
    } else if same_text(word, b"--count") {
        Some(Name::Count)
    } else {
        None
    }
}

//! Words, as they are compared.
ghost use Rattle.std.specs.Prelude.{◌≡◌, bytes_eq};

/// Whether a word is this one.
pub fn is_word(word: &[u8], wanted: &[u8]) -> bool
    ensures { result ≡ bytes_eq word.now wanted.now }
{
    word == wanted
}

//! Letters as text.
ghost use Rattle.std.specs.Prelude.{◌≡◌};
ghost use Rattle.std.specs.Str.{IsUtf8};

use std::str;

/// These letters as text. Takes no memory.
pub(crate) fn text_of(letters: &[u8]) -> &str
    requires { IsUtf8 letters.now }
    ensures { result.now ≡ letters.now }
{
    match str::from_utf8(letters) {
        Ok(text) => text,
        Err(_) => unreachable!(),
    }
}

//! Numerals of a fixed width, in an alphabet whose size is the base.
ghost use Rattle.std.specs.Prelude.{◌≡◌, ◌<◌, ◌≤◌, ◌^◌, length};
ghost use Rattle.slate_ids.specs.Numerals.{digit_of, numeral, number_of};

/// Writes the last digits of a number over the whole of `out`, the highest first.
pub(crate) fn write_numeral(out: &mut [u8], alphabet: &[u8], n: u128)
    requires { 0 < length alphabet.now }
    ensures { out.new ≡ numeral alphabet.now (length out.old) n }
{
    let base = alphabet.len() as u128;
    let mut rest = n;
    let mut i = out.len();
    while i > 0 {
        i -= 1;
        out[i] = alphabet[(rest % base) as usize];
        rest /= base;
    }
}

// The place of a letter, where the alphabet has it.
fn digit_of(alphabet: &[u8], letter: u8) -> Option<usize>
    ensures { result ≡ digit_of alphabet.now letter }
{
    alphabet.iter().position(|c| *c == letter)
}

/// The number that letters write, where the alphabet has them all.
pub(crate) fn read_numeral(alphabet: &[u8], letters: &[u8]) -> Option<u128>
    requires { length alphabet.now ^ length letters.now ≤ 2 ^ 128 }
    ensures { result ≡ number_of alphabet.now letters.now }
{
    let base = alphabet.len() as u128;
    let mut number = 0;
    for letter in letters {
        let digit = digit_of(alphabet, *letter)?;
        number = number * base + digit as u128;
    }
    Some(number)
}

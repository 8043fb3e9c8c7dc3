//! Ids of tables and views as scripts write them: milliseconds and tail in decimal, with a colon between them.
ghost use Rattle.std.specs.Prelude.{◌≡◌, ◌<◌, ◌≤◌, length, drop, IfSome};
ghost use Rattle.slate_script_json.specs.WrittenIds as written;

use slate_ids::{Ulid, number_below};

// The id of these milliseconds and this tail.
fn id_of_parts(ms: &[u8], tail: &[u8]) -> Option<Ulid>
    ensures { result ≡ written.id_of_parts ms.now tail.now }
{
    let ms = number_below(ms, 1 << 48)?;
    let tail = number_below(tail, 1 << 80)?;
    Some(Ulid::from_parts(ms as u64, tail))
}

// Where the first colon stands.
fn colon_in(text: &[u8]) -> Option<usize>
    ensures place { result ≡ written.colon_in text.now }
    ensures within { IfSome result (λ i. i < length text.now) }
{
    text.iter().position(|c| *c == b':')
}

// What stands from a place on.
fn from_place(text: &[u8], place: usize) -> &[u8]
    requires { place ≤ length text.now }
    ensures { result.now ≡ drop place text.now }
{
    &text[place..]
}

/// The id that a text writes. Takes no memory.
pub(crate) fn written_id(text: &[u8]) -> Option<Ulid>
    ensures { result ≡ written.written_id text.now }
{
    let colon = colon_in(text)?;
    id_of_parts(&text[..colon], from_place(text, colon + 1))
}

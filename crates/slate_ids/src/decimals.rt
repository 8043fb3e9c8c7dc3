//! Numbers in decimal, as they are read.
ghost use Rattle.std.specs.Prelude.{◌≡◌, ◌<◌, ◌≤◌, ◌^◌, IfSome};
ghost use Rattle.slate_ids.specs.Decimals.{digits_from, ReadsDecimal};

// The number that the digits are, where it is below the limit.
fn digits(text: &[u8], limit: u128) -> Option<u128>
    requires some { 0 < limit }
    requires small { limit ≤ 2 ^ 80 }
    ensures value { result ≡ digits_from limit 0 text.now }
    ensures fits { IfSome result (λ n. n < limit) }
{
    let mut n = 0u128;
    for c in text {
        if *c < b'0' || *c > b'9' {
            return None;
        }
        n = n * 10 + (*c - b'0') as u128;
        if n >= limit {
            return None;
        }
    }
    Some(n)
}

/// The number that one or more digits write, where it is below the limit. Zeros may lead. Takes no memory.
pub fn number_below(text: &[u8], limit: u128) -> Option<u128>
    requires some { 0 < limit }
    requires small { limit ≤ 2 ^ 80 }
    ensures value { result ≡ Rattle.slate_ids.specs.Decimals.number_below limit text.now }
    ensures fits { IfSome result (λ n. n < limit) }
{
    if text.is_empty() {
        return None;
    }
    digits(text, limit)
}

/// The number that bytes write in decimal, without a leading zero and below 2^64. Takes no memory.
pub fn decimal_of(bytes: &[u8]) -> Option<u64>
    ensures value { result ≡ Rattle.slate_ids.specs.Decimals.decimal_of bytes.now }
    ensures decimal { ReadsDecimal bytes.now result }
{
    if bytes.len() > 1 && bytes[0] == b'0' {
        return None;
    }
    let number = number_below(bytes, 1 << 64)?;
    Some(number as u64)
}

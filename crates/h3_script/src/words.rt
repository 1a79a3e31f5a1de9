//! The words of a line.
ghost use Rattle.std.specs.Prelude.{◌≡◌, ◌+◌, ◌-◌, ◌*◌, ◌^◌, ◌&&◌, nat_lt, Some, None, bytes_eq, if◌then◌else◌};
ghost use Rattle.h3_script.specs.Words.{is_digit, number_of, side_of, id_of};

use h3_coding::varint::VarInt;
use h3_proto::stream::{Side, StreamId};

/// Whether the word is this text.
pub fn is(word: &[u8], text: &str) -> bool
    ensures { result ≡ bytes_eq word.now text.now }
{
    *word == *text.as_bytes()
}

/// The number with one more digit, if the byte is a digit and the number is then below 2^64.
fn with_digit(number: u64, byte: u8) -> Option<u64>
    ensures { result ≡ (if is_digit byte && nat_lt (10 * number + (byte - 48)) (2 ^ 64)
        then Some (10 * number + (byte - 48)) else None) }
{
    if !byte.is_ascii_digit() {
        return None;
    }
    number.checked_mul(10)?.checked_add(u64::from(byte - b'0'))
}

/// Decimal digits of a value below 2^64.
pub fn number(word: &[u8]) -> Option<u64>
    ensures { result ≡ number_of word.now }
{
    let len = word.len();
    if len == 0 {
        return None;
    }
    let mut number = 0;
    for byte in word {
        let more = with_digit(number, *byte)?;
        number = more;
    }
    Some(number)
}

/// `c` or `s`.
pub fn side(word: &[u8]) -> Option<Side>
    ensures { result ≡ side_of word.now }
{
    if is(word, "c") {
        return Some(Side::Client);
    }
    if is(word, "s") {
        return Some(Side::Server);
    }
    None
}

/// A number below 2^62.
pub fn var_int(word: &[u8]) -> Option<VarInt>
    ensures { result ≡ id_of word.now }
{
    let number = number(word)?;
    VarInt::try_from(number).ok()
}

/// A stream id: a number below 2^62.
pub fn stream_id(word: &[u8]) -> Option<StreamId>
    ensures { result ≡ id_of word.now }
{
    let number = number(word)?;
    StreamId::try_from(number).ok()
}

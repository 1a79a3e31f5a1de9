//! What a name or a value says.
ghost use Rattle.std.specs.Prelude.{◌≡◌, ◌-◌, ◌^◌, ◌||◌, ◌==◌, bytes_eq, length, min, nat_lt, slice_index, if◌then◌else◌, Some, None};
ghost use Rattle.std.specs.Char.{is_ascii_digit};
ghost use Rattle.std.specs.List.{list_all, list_any};
ghost use Rattle.h3_messages.specs.Messages.{is_word, is_space, is_length, is_port, is_scheme, is_scheme_byte, names_port, number_of};

// No stream carries as many bytes (RFC 9000, 4.5).
const LENGTH_LIMIT: u64 = 1 << 62;

/// The byte at this place, or 0 after the end.
pub(crate) fn byte_at(text: &[u8], index: usize) -> u8
    ensures { result ≡ slice_index text.now index }
{
    if index < text.len() { text[index] } else { 0 }
}

/// Whether the two texts are the same. If their lengths differ, no call is made.
#[tactic(auto, using(crate::proofs::Steps::other_lengths))]
#[inline(always)]
pub(crate) fn is_same(text: &[u8], word: &[u8]) -> bool
    ensures { result ≡ bytes_eq text.now word.now }
{
    text.len() == word.len() && h3_field::is_same(text, word)
}

/// Whether the text has the byte.
pub(crate) fn has_byte(wanted: u8, text: &[u8]) -> bool
    ensures { result ≡ list_any (λ b. b == wanted) text.now }
{
    text.contains(&wanted)
}

/// Whether the text is the word, but for upper case.
pub(crate) fn is_word(word: &[u8], text: &[u8]) -> bool
    ensures { result ≡ is_word word.now text.now }
{
    text.eq_ignore_ascii_case(word)
}

/// Whether the byte is a space or a tab.
pub(crate) fn is_space(byte: u8) -> bool
    ensures { result ≡ is_space byte }
{
    byte == 32 || byte == 9
}

/// Whether the text starts or ends with white space.
pub(crate) fn has_space_around(text: &[u8]) -> bool
    ensures { result ≡ (is_space (slice_index text.now 0) || is_space (slice_index text.now (length text.now - 1))) }
{
    if text.is_empty() {
        return false;
    }
    let (first, last) = (text[0], text[text.len() - 1]);
    // Nearly all texts end in bytes above the space: one test passes both.
    first.min(last) <= 32 && (is_space(first) || is_space(last))
}

/// Whether each byte is a digit.
fn are_digits(text: &[u8]) -> bool
    ensures { result ≡ list_all is_ascii_digit text.now }
{
    'bytes: for byte in text {
        if !byte.is_ascii_digit() {
            return false;
        }
    }
    true
}

/// The number of these digits, or 2 ^ 62 if it is greater.
#[tactic(auto, using(crate::proofs::Steps::number_step))]
fn number_of(digits: &[u8]) -> u64
    ensures { result ≡ min (2 ^ 62) (number_of digits.now) }
{
    let mut number: u64 = 0;
    'bytes: for byte in digits {
        let digit = byte.saturating_sub(b'0') as u64;
        number = number
            .saturating_mul(10)
            .saturating_add(digit)
            .min(LENGTH_LIMIT);
    }
    number
}

// RFC 9110 8.6: content-length of 2^62 and more
/// The number of bytes that a `content-length` says, or none if it is no length (RFC 9110, 8.6).
pub(crate) fn length_of(text: &[u8]) -> Option<u64>
    ensures { result ≡ (if is_length text.now then Some (number_of text.now) else None) }
{
    if text.is_empty() || !are_digits(text) {
        return None;
    }
    let number = number_of(text);
    if number == LENGTH_LIMIT {
        return None;
    }
    Some(number)
}

/// Whether the digits say a number above 0.
pub(crate) fn says_more_than_none(digits: &[u8]) -> bool
    ensures { result ≡ nat_lt 0 (number_of digits.now) }
{
    number_of(digits) > 0
}

/// Whether the byte may stand in a scheme after its first one (RFC 3986, 3.1).
fn is_scheme_byte(byte: u8) -> bool
    ensures { result ≡ is_scheme_byte byte }
{
    byte.is_ascii_alphabetic()
        || byte.is_ascii_digit()
        || byte == b'+'
        || byte == b'-'
        || byte == b'.'
}

fn are_scheme_bytes(text: &[u8]) -> bool
    ensures { result ≡ list_all is_scheme_byte text.now }
{
    'bytes: for byte in text {
        if !is_scheme_byte(*byte) {
            return false;
        }
    }
    true
}

/// Whether the text is a scheme (RFC 3986, 3.1).
pub(crate) fn is_scheme(text: &[u8]) -> bool
    ensures { result ≡ is_scheme text.now }
{
    is_same(text, b"https") || (byte_at(text, 0).is_ascii_alphabetic() && are_scheme_bytes(text))
}

// Whether the text is the port of a CONNECT request: a number of 16 bits other than 0 (RFC 9110, 9.3.6).
fn is_port(text: &[u8]) -> bool
    ensures { result ≡ is_port text.now }
{
    if text.len() > 5 || !are_digits(text) {
        return false;
    }
    let number = number_of(text);
    number > 0 && number < 65_536
}

/// Whether an authority ends in a port (RFC 9110, 9.3.6).
#[tactic(auto, using(crate::proofs::Steps::names_port_rest))]
pub(crate) fn names_port(text: &[u8]) -> bool
    ensures { result ≡ names_port text.now }
{
    'places: for place in 0..text.len() {
        if text[place] == b':' && is_port(&text[place + 1..]) {
            return true;
        }
    }
    false
}

//! The grammars of names and values, asked of bytes where they lie. Nothing here takes memory.
ghost use Rattle.std.specs.Prelude.{◌≡◌, ◌≤◌, ◌==◌, ◌||◌, MatchBool, IsUtf8, bytes_eq, codes, length, slice_index};
ghost use Rattle.std.specs.List.{list_all};
ghost use Rattle.http_header.specs.Token.{is_token_byte};
ghost use Rattle.http_uri.specs.ByteClasses.{is_scheme_byte, is_authority_byte, is_path_byte, is_query_byte, is_delimiter};
ghost use Rattle.http_uri.specs.ByteClasses.{split_once_front, split_once_back, index_of, question_mark, slash};
ghost use Rattle.http_uri.specs.Grammar.{IsAuthority};
ghost use Rattle.h3_header.specs.HeadTests.{is_token, is_header_name, is_host, is_scheme, is_authority, is_path, is_path_input};
ghost use Rattle.h3_header.specs.HeadTests.{is_plain_path, are_plain_parts, are_query, is_field_value};

mod marks;
mod names;

use http_header::is_token_char;
use httparse::is_header_value;
use marks::{are_host_bytes, are_name_bytes, are_plain_path_bytes, are_plain_query_bytes};
use std::str;

/// The longest name that a `HeaderMap` takes.
const MOST_NAME_BYTES: usize = 65535;

// As in `[FEDC:BA98:7654:3210:FEDC:BA98:7654:3210]:80`.
const MOST_COLONS: u32 = 8;

/// Whether the text is a token (RFC 9110, 5.6.2).
pub(crate) fn is_token(text: &[u8]) -> bool
    ensures { result ≡ is_token text.now }
{
    !text.is_empty() && are_token_bytes(text)
}

fn are_token_bytes(text: &[u8]) -> bool
    ensures { result ≡ list_all is_token_byte text.now }
{
    text.iter().all(|byte| is_token_char(*byte))
}

/// Whether the text is the name of a field, in lower case (RFC 9114, 4.2).
pub(crate) fn is_header_name(text: &[u8]) -> bool
    ensures { result ≡ is_header_name text.now }
{
    !text.is_empty() && text.len() <= MOST_NAME_BYTES && are_name_bytes(text)
}

/// Whether the text may be a field's value (RFC 9110, 5.5).
pub(crate) fn is_field_value(text: &[u8]) -> bool
    ensures { result ≡ is_field_value text.now }
{
    is_header_value(text)
}

/// Whether the text is a scheme of at most 64 bytes, or none (RFC 3986, 3.1).
pub(crate) fn is_scheme(text: &[u8]) -> bool
    ensures { result ≡ is_scheme text.now }
{
    is_text(text, b"https".as_slice()) || (are_scheme_bytes(text) && text.len() <= 64)
}

fn are_scheme_bytes(text: &[u8]) -> bool
    ensures { result ≡ list_all is_scheme_byte text.now }
{
    text.iter().all(|byte| is_scheme_byte(*byte))
}

fn is_scheme_byte(byte: u8) -> bool
    ensures { result ≡ is_scheme_byte byte }
{
    matches!(byte, b'+' | b'-' | b'.' | b'0'..=b'9' | b'A'..=b'Z' | b'a'..=b'z' | b'~')
}

/// Whether the text is an authority (RFC 3986, 3.2).
pub fn is_authority(text: &[u8]) -> bool
    ensures { result ≡ is_authority text.now }
{
    is_host(text) || has_grammar(text)
}

// Whether the text is the name of a host and no more, as most authorities are.
fn is_host(text: &[u8]) -> bool
    ensures { result ≡ is_host text.now }
{
    !text.is_empty() && are_host_bytes(text)
}

// Whether an authority may have this byte.
fn is_authority_byte(byte: u8) -> bool
    ensures { result ≡ is_authority_byte byte }
{
    byte == 33
        || (36 <= byte && byte <= 46)
        || (48 <= byte && byte <= 59)
        || byte == 61
        || (64 <= byte && byte <= 91)
        || byte == 93
        || byte == 95
        || (97 <= byte && byte <= 122)
        || byte == 126
}

// The same, said by the grammar: the counts begin again after userinfo and after a closing bracket.
fn has_grammar(text: &[u8]) -> bool
    ensures { MatchBool result (IsAuthority text.now) (¬ (IsAuthority text.now)) }
{
    let mut colons = 0;
    let mut opened = false;
    let mut closed = false;
    let mut percent = false;
    'bytes: for byte in text {
        if !is_authority_byte(*byte) {
            return false;
        }
        match *byte {
            b'%' => percent = true,
            b':' => {
                if colons >= MOST_COLONS {
                    return false;
                }
                colons += 1;
            }
            b'[' => {
                if percent || opened {
                    return false;
                }
                opened = true;
            }
            b']' => {
                if !opened || closed {
                    return false;
                }
                closed = true;
                colons = 0;
                percent = false;
            }
            b'@' => {
                colons = 0;
                percent = false;
            }
            _ => {}
        }
    }
    if text.is_empty() || byte_at(text, text.len() - 1) == b'@' {
        return false;
    }
    opened == closed && colons <= 1 && !percent
}

/// Whether the text is a path and a query, with or without a fragment after them (RFC 3986, 3.3 to 3.5).
#[inline(always)]
pub(crate) fn is_path_input(text: &[u8]) -> bool
    ensures { result ≡ is_path_input text.now }
{
    is_plain_path(text)
        || ((text == b"*".as_slice() || starts_with_delimiter(text))
            && text.len() <= 65534
            && is_path(before(b'#', text)))
}

// Whether the text is a path in ASCII, which may have a query in ASCII after it, as most are.
fn is_plain_path(text: &[u8]) -> bool
    ensures { result ≡ is_plain_path text.now }
{
    byte_at(text, 0) == b'/' && text.len() <= 65534 && are_plain_parts(text)
}

fn are_plain_parts(text: &[u8]) -> bool
    ensures { result ≡ are_plain_parts text.now }
{
    if are_plain_path_bytes(text) {
        return true;
    }
    let at = index_of(b'?', text);
    are_plain_path_bytes(&text[..at])
        && (at == text.len() || are_plain_query_bytes(&text[at + 1..]))
}

// Whether the first byte would end an authority.
fn starts_with_delimiter(text: &[u8]) -> bool
    ensures { result ≡ is_delimiter (slice_index text.now 0) }
{
    let first = byte_at(text, 0);
    first == b'/' || first == b'?' || first == b'#'
}

// Whether the text is a path and a query after its first `?`.
#[tactic(auto, using(crate::proofs::HeadTestLaws::decided, crate::proofs::HeadTestLaws::utf8))]
fn is_path(text: &[u8]) -> bool
    ensures { result ≡ is_path text.now }
{
    begins_path(text)
        && are_path_bytes(before(b'?', text))
        && has_query(text)
        && is_utf8(text)
        && text.len() <= 65534
}

// An empty path, `*`, or one that begins with `/` or with the `?` of a query.
fn begins_path(text: &[u8]) -> bool
    ensures { result ≡
        (bytes_eq text.now (codes "") ||
        (bytes_eq text.now (codes "*") || ((slice_index text.now 0 == slash) || (slice_index text.now 0 == question_mark)))) }
{
    let first = byte_at(text, 0);
    text.is_empty() || text == b"*".as_slice() || first == b'/' || first == b'?'
}

// Whether what comes after the first `?` may be a query. Without one there is none.
fn has_query(text: &[u8]) -> bool
    ensures { result ≡ are_query (split_once_back question_mark text.now) }
{
    let at = index_of(b'?', text);
    at == text.len() || are_query_bytes(&text[at + 1..])
}

fn are_path_bytes(text: &[u8]) -> bool
    ensures { result ≡ list_all is_path_byte text.now }
{
    text.iter().all(|byte| is_path_byte(*byte))
}

fn are_query_bytes(text: &[u8]) -> bool
    ensures { result ≡ list_all is_query_byte text.now }
{
    text.iter().all(|byte| is_query_byte(*byte))
}

fn is_utf8(text: &[u8]) -> bool
    ensures { MatchBool result (IsUtf8 text.now) (¬ (IsUtf8 text.now)) }
{
    str::from_utf8(text).is_ok()
}

// Visible bytes and those above ASCII, but for `#`, `<`, `>`, `?` and the backtick.
fn is_path_byte(byte: u8) -> bool
    ensures { result ≡ is_path_byte byte }
{
    matches!(byte, 33..=34 | 36..=59 | 61 | 64..=95 | 97..=126 | 128..=255)
}

// Visible bytes and those above ASCII, but for `"`, `#`, `<` and `>`.
fn is_query_byte(byte: u8) -> bool
    ensures { result ≡ is_query_byte byte }
{
    matches!(byte, 33 | 36..=59 | 61 | 63..=126 | 128..=255)
}

// The text before the first such byte, or all of it.
fn before(byte: u8, text: &[u8]) -> &[u8]
    ensures { result.now ≡ split_once_front byte text.now }
{
    &text[..index_of(byte, text)]
}

// The index at which the byte first occurs, or the length.
fn index_of(byte: u8, text: &[u8]) -> usize
    ensures value { result ≡ index_of byte text.now }
    ensures within { result ≤ length text.now }
{
    text.iter().take_while(|b| **b != byte).count()
}

/// The byte at this place, or 0 after the end.
pub(crate) fn byte_at(text: &[u8], index: usize) -> u8
    ensures { result ≡ slice_index text.now index }
{
    if index < text.len() { text[index] } else { 0 }
}

/// Whether the text is the wanted one. At a literal the loop is a chain of tests, which is cheaper than `==` of two slices.
#[inline(always)]
pub(crate) fn is_text(text: &[u8], wanted: &[u8]) -> bool
    ensures { result ≡ bytes_eq text.now wanted.now }
{
    if text.len() != wanted.len() {
        return false;
    }
    'bytes: for i in 0..wanted.len() {
        if text[i] != wanted[i] {
            return false;
        }
    }
    true
}

//! Names of letters in lower case and dashes alone, as nearly all are: two loads, which may overlap, cover one of 8 to 32 bytes.
ghost use Rattle.std.specs.Prelude.{◌≡◌, ◌+◌, ◌≤◌, true, length};
ghost use Rattle.std.specs.List.{list_all};
ghost use Rattle.httparse.specs.Pieces.{AllPassBetween};
ghost use Rattle.h3_header.specs.HeadTests.{is_name_byte};

use std::simd::prelude::*;

/// Whether the text is such a name.
pub(super) fn is_plain_name(text: &[u8]) -> bool
    ensures { result ≡ true → list_all is_name_byte text.now ≡ true }
{
    let len = text.len();
    if len < 8 || len > 32 {
        return false;
    }
    if len < 16 {
        return are_eight_plain(text, 0) && are_eight_plain(text, len - 8);
    }
    are_sixteen_plain(text, 0) && are_sixteen_plain(text, len - 16)
}

// Whether the eight bytes from there on are such letters or dashes.
#[inline(always)]
fn are_eight_plain(text: &[u8], at: usize) -> bool
    requires { at + 8 ≤ length text.now }
    ensures { result ≡ true → AllPassBetween is_name_byte text.now at (at + 8) }
{
    let bytes = u8x8::from_slice(&text[at..]);
    let no_letter = (bytes - u8x8::splat(b'a')).simd_ge(u8x8::splat(26));
    let other = no_letter & bytes.simd_ne(u8x8::splat(b'-'));
    other.to_bitmask() == 0
}

// The same of sixteen.
#[inline(always)]
fn are_sixteen_plain(text: &[u8], at: usize) -> bool
    requires { at + 16 ≤ length text.now }
    ensures { result ≡ true → AllPassBetween is_name_byte text.now at (at + 16) }
{
    let bytes = u8x16::from_slice(&text[at..]);
    let no_letter = (bytes - u8x16::splat(b'a')).simd_ge(u8x16::splat(26));
    let other = no_letter & bytes.simd_ne(u8x16::splat(b'-'));
    other.to_bitmask() == 0
}

//! Texts that are cut at the bytes of one value.
ghost use Rattle.std.specs.Prelude.{◌≡◌, ◌<◌, length, option_map, IfOk, IfSome};
ghost use Rattle.h3_script.specs.Pieces.{cut, pieces, texts};

use std::alloc::{AllocError, Global};

/// The bytes before the first of that value, and those after it.
pub fn cut(bytes: &[u8], at: u8) -> Option<(&[u8], &[u8])>
    ensures value { option_map (λ parts. (parts.0.now, parts.1.now)) result ≡ cut at bytes.now }
    ensures shorter { IfSome result (λ parts. length parts.1.now < length bytes.now) }
{
    for i in 0..bytes.len() {
        if bytes[i] == at {
            return Some((&bytes[..i], &bytes[i + 1..]));
        }
    }
    None
}

/// The pieces that the bytes of that value part.
pub fn pieces(alloc: Global, bytes: &[u8], at: u8) -> Result<Vec<&[u8]>, AllocError>
    ensures { IfOk result (λ found. texts found.items ≡ pieces at bytes.now) }
{
    let mut found = Vec::new(alloc);
    let mut rest = bytes;
    while let Some((front, behind)) = cut(rest, at) {
        found.push(front)?;
        rest = behind;
    }
    found.push(rest)?;
    Ok(found)
}

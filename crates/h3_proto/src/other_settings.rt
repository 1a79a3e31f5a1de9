//! The settings of a payload that have no meaning here (RFC 9114, section 7.2.4).
ghost use Rattle.std.specs.Prelude.{◌≡◌, ◌≤◌, length, take, IfOk};
ghost use Rattle.h3_proto.specs.OtherSettings.{is_other, is_reserved, others_of};
ghost use Rattle.h3_proto.specs.Settings.{is_known};

use crate::frame::{SettingId, get_pair};
use bytes::Buf;
use std::alloc::{AllocError, Global};

/// Whether an id of a setting, or a type of a stream, is reserved as one without a meaning (RFC 9114, sections 6.2.3 and 7.2.4.1).
pub fn is_reserved(id: u64) -> bool
    ensures { result ≡ is_reserved id }
{
    id >= 0x21 && (id - 0x21) % 0x1f == 0
}

/// Whether an id has no meaning here, and is not reserved.
fn is_other(id: u64) -> bool
    ensures { result ≡ is_other id }
{
    !SettingId(id).is_known() && !is_reserved(id)
}

/// Of the settings in a payload of `len` bytes the first ones that have no meaning here, `most` at most. It stops at a pair that is not
/// whole.
pub fn read_others<B: Buf>(
    alloc: Global,
    buf: &mut B,
    len: usize,
    most: usize,
) -> Result<Vec<(u64, u64)>, AllocError>
    requires { len ≤ length (B.unread buf.old) }
    ensures { IfOk result (λ kept. kept.items ≡ others_of most (take len (B.unread buf.old))) }
{
    let mut kept = Vec::new(alloc);
    let mut left = len;
    while left > 0 && kept.len() < most {
        let Some((id, value, rest)) = get_pair(buf, left) else {
            return Ok(kept);
        };
        left = rest;
        if is_other(id) {
            kept.push((id, value))?;
        }
    }
    Ok(kept)
}

//! How strings and lists are returned: in the format in which they are passed.

use crate::report::Failure;
use h3_field::Fields;

fn put_bytes(packed: &mut Vec<u8>, bytes: &[u8]) -> Result<(), Failure> {
    packed.extend_from_slice(bytes)?;
    Ok(())
}

pub(crate) fn put_number(packed: &mut Vec<u8>, number: usize) -> Result<(), Failure> {
    if number >= 1 << 32 {
        return Err(Failure::Room);
    }
    put_bytes(packed, &(number as u32).to_le_bytes())
}

pub(crate) fn put_string(packed: &mut Vec<u8>, string: &[u8]) -> Result<(), Failure> {
    put_number(packed, string.len())?;
    put_bytes(packed, string)
}

/// A list: the count of its fields, and the name and the value of each.
pub(crate) fn put_fields(packed: &mut Vec<u8>, fields: &Fields<'_>) -> Result<(), Failure> {
    put_number(packed, fields.len())?;
    for place in 0..fields.len() {
        let field = fields.get(place);
        put_string(packed, field.name())?;
        put_string(packed, field.value())?;
    }
    Ok(())
}

/// Copies what was packed to the front of `out`.
pub(crate) fn hand_out(packed: &[u8], out: &mut [u8]) -> Result<(), Failure> {
    if packed.len() > out.len() {
        return Err(Failure::Room);
    }
    out[..packed.len()].copy_from_slice(packed);
    Ok(())
}

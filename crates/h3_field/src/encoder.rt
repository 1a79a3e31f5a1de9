//! Field sections that name no dynamic entry, encoded (RFC 9204, section 4.5).
ghost use Rattle.std.specs.Prelude.{◌≡◌, ◌<◌, ◌^◌, ◌++◌, length, take, OnOk, OnErr, IfOk};
ghost use Rattle.std.specs.Result.{IsOkUnless};
ghost use Rattle.std.specs.List.{AllByRecursion};
ghost use Rattle.h3_field.specs.ReadBack.{IsFieldOfBytes};
ghost use Rattle.h3_field.specs.Field.{field_size, section_size};
ghost use Rattle.h3_field.specs.Line.{line_bytes};
ghost use Rattle.h3_field.specs.Section.{section_bytes};
ghost use Rattle.h3_field.specs.StaticLines.{static_line_by};
ghost use Rattle.h3_field.specs.declared.encoder_error.EncoderError.TheVariants.{OutOfMemory};

use crate::block::{HeaderPrefix, Indexed, Literal, LiteralWithNameRef};
use crate::encoder_error::EncoderError;
use crate::field::HeaderField;
use crate::fields::{FieldRef, Fields};
use crate::static_::{Found, StaticTable};

/// Appends the line of a field: an entry of the static table, or a literal with a static or literal name. A field with the flag is a
/// literal with the bit N (RFC 9204, section 4.5.4). `shortest` is as in `Literal::write`. A refusal appends nothing.
pub fn encode_static_line(
    field: &FieldRef<'_>,
    shortest: bool,
    block: &mut Vec<u8>,
) -> Result<(), EncoderError>
    requires { field_size field.now < 2 ^ 62 }
    ensures memory { IsOkUnless result OutOfMemory }
    ensures ok { OnOk result (block.new.items ≡ block.old.items ++ line_bytes (static_line_by shortest field.now)) }
    ensures err { OnErr result (block.new.items ≡ block.old.items) }
{
    let never_indexed = field.is_never_indexed();
    let (name, value) = (field.name(), field.value());
    match StaticTable::look_up(field) {
        Found::Entry(index) => Indexed::Static(index).encode(block)?,
        Found::Name(index) => {
            LiteralWithNameRef::write_static(index, value, never_indexed, shortest, block)?
        }
        Found::Nothing => Literal::write(name, value, never_indexed, shortest, block)?,
    }
    Ok(())
}

/// Appends a section of count 0 and base 0. A refusal may leave a part of it.
fn put_section(block: &mut Vec<u8>, fields: &Fields<'_>) -> Result<u64, EncoderError>
    requires { section_size fields.now < 2 ^ 62 }
    ensures memory { IsOkUnless result OutOfMemory }
    ensures ok { OnOk result (block.new.items ≡ block.old.items ++ section_bytes fields.now) }
    ensures size { IfOk result (λ size. size ≡ section_size fields.now) }
    ensures bytes { OnOk result (AllByRecursion IsFieldOfBytes fields.now) }
    ensures fits { OnOk result (length (section_bytes fields.now) < 2 ^ 63) }
    ensures err { OnErr result (take (length block.old.items) block.new.items ≡ block.old.items) }
{
    HeaderPrefix::new(0, 0, 0, 0).encode(block)?;
    let mut size: u64 = 0;
    // (the label names the loop in its proof)
    'fields: for place in 0..fields.len() {
        let field = fields.get(place);
        encode_static_line(&field, false, block)?;
        // (for the proof: name and value are bytes)
        field.are_bytes();
        size += field.mem_size() as u64;
    }
    Ok(size)
}

/// Appends a field section that names no dynamic entry, and answers the sum of the sizes of its fields. A refusal
/// appends nothing.
pub fn encode_stateless(block: &mut Vec<u8>, fields: &[HeaderField]) -> Result<u64, EncoderError>
    requires { section_size fields.now < 2 ^ 62 }
    ensures memory { IsOkUnless result OutOfMemory }
    ensures ok { OnOk result (block.new.items ≡ block.old.items ++ section_bytes fields.now) }
    ensures size { IfOk result (λ size. size ≡ section_size fields.now) }
    ensures bytes { OnOk result (AllByRecursion IsFieldOfBytes fields.now) }
    ensures fits { OnOk result (length (section_bytes fields.now) < 2 ^ 63) }
    ensures err { OnErr result (block.new.items ≡ block.old.items) }
{
    let start = block.len();
    let encoded = put_section(block, &Fields::of(fields));
    if encoded.is_err() {
        block.truncate(start);
    }
    encoded
}

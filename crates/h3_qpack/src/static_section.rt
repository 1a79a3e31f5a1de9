//! A field section that names no entry and inserts nothing, by the choices of its encoder (RFC 9204, section 4.5).
ghost use Rattle.std.specs.Prelude.{◌≡◌, ◌<◌, ◌^◌, ◌++◌, length, take, OnOk, OnErr};
ghost use Rattle.std.specs.Result.{IsOkUnless};
ghost use Rattle.std.specs.List.{AllByRecursion};
ghost use Rattle.h3_field.specs.Field.{section_size};
ghost use Rattle.h3_field.specs.ReadBack.{IsFieldOfBytes};
ghost use Rattle.h3_field.specs.declared.encoder_error.EncoderError.TheVariants.{OutOfMemory};
ghost use Rattle.h3_qpack.specs.StaticSections.{static_section};

use crate::encoder_choices::EncoderChoices;
use crate::writing::guard;
use h3_field::block::HeaderPrefix;
use h3_field::{EncoderError, Fields, encode_static_line};

/// Appends a section of count 0 and base 0. A refusal may leave a part of it.
fn put_lines(
    choices: EncoderChoices,
    fields: &Fields<'_>,
    block: &mut Vec<u8>,
) -> Result<(), EncoderError>
    requires { section_size fields.now < 2 ^ 62 }
    ensures memory { IsOkUnless result OutOfMemory }
    ensures ok { OnOk result (block.new.items ≡ block.old.items ++ static_section choices fields.now) }
    ensures bytes { OnOk result (AllByRecursion IsFieldOfBytes fields.now) }
    ensures err { OnErr result (take (length block.old.items) block.new.items ≡ block.old.items) }
{
    HeaderPrefix::new(0, 0, 0, 0).encode(block)?;
    // (the label names the loop in its proof)
    'fields: for place in 0..fields.len() {
        let field = fields.get(place);
        // (for the proof: name and value are bytes)
        field.are_bytes();
        let taken = guard(choices.guards_secrets, field);
        encode_static_line(&taken, choices.shortest_strings, block)?;
    }
    Ok(())
}

/// Appends a field section that names no entry, as an encoder with these choices writes it. A refusal appends nothing.
pub(crate) fn put_static_section(
    choices: EncoderChoices,
    fields: &Fields<'_>,
    block: &mut Vec<u8>,
) -> Result<(), EncoderError>
    requires { section_size fields.now < 2 ^ 62 }
    ensures memory { IsOkUnless result OutOfMemory }
    ensures ok { OnOk result (block.new.items ≡ block.old.items ++ static_section choices fields.now) }
    ensures bytes { OnOk result (AllByRecursion IsFieldOfBytes fields.now) }
    ensures err { OnErr result (block.new.items ≡ block.old.items) }
{
    let start = block.len();
    let put = put_lines(choices, fields, block);
    if put.is_err() {
        block.truncate(start);
    }
    put
}

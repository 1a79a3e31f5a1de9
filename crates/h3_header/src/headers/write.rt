//! The fields of a header, made one by one or appended to a list.
ghost use Rattle.std.specs.Prelude.{◌≡◌, ◌∷◌, [], ◌++◌, IfOk, IfSome, OnOk, option_copied};
ghost use Rattle.std.specs.List.{AllByRecursion};
ghost use Rattle.h3_field.specs.ReadBack.{AreBytes, IsFieldOfBytes};
ghost use Rattle.h3_header.specs.Head.{optional_field, regular_fields};
ghost use Rattle.h3_header.specs.ReadsBack.{IsValidMap};
ghost use Rattle.h3_field.specs.Field.{plain_field};

use h3_field::HeaderField;
use http_header::HeaderMap;
use std::alloc::{AllocError, Global};

/// A pseudo-header field. Its name is not copied, and a value of at most 36 bytes takes no memory.
pub(crate) fn pseudo_field(
    alloc: Global,
    name: &'static [u8],
    value: &str,
) -> Result<HeaderField, AllocError>
    ensures { IfOk result (λ f. f ≡ plain_field name.now value.now) }
{
    HeaderField::with_copied_value(alloc, name, value.as_bytes())
}

/// A pseudo-header field of static parts.
pub(crate) fn static_field(name: &'static [u8], value: &'static str) -> HeaderField
    ensures { result ≡ plain_field name.now value.now }
{
    HeaderField::from_static(name, value.as_bytes())
}

/// A regular field, of copies: a short one takes no memory, and any other one block.
pub(crate) fn regular_field(
    alloc: Global,
    name: &[u8],
    value: &[u8],
) -> Result<HeaderField, AllocError>
    ensures { IfOk result (λ f. f ≡ plain_field name.now value.now) }
{
    HeaderField::copied(alloc, name, value)
}

/// Appends a pseudo-header field that may be missing.
pub(crate) fn append_pseudo(
    alloc: Global,
    list: &mut Vec<HeaderField>,
    name: &'static [u8],
    value: Option<&str>,
) -> Result<(), AllocError>
    ensures { OnOk result (list.new.items
        ≡ list.old.items ++ optional_field name.now (option_copied value.entry)) }
{
    let Some(value) = value else {
        return Ok(());
    };
    list.push(pseudo_field(alloc, name, value)?)?;
    Ok(())
}

/// Appends a pseudo-header field of static parts that may be missing.
pub(crate) fn append_static(
    list: &mut Vec<HeaderField>,
    name: &'static [u8],
    value: Option<&'static str>,
) -> Result<(), AllocError>
    ensures { OnOk result (list.new.items
        ≡ list.old.items ++ optional_field name.now (option_copied value.entry)) }
{
    let Some(value) = value else {
        return Ok(());
    };
    list.push(static_field(name, value))?;
    Ok(())
}

/// Appends the fields of a map.
pub(crate) fn append_regular(
    alloc: Global,
    list: &mut Vec<HeaderField>,
    map: &HeaderMap,
) -> Result<(), AllocError>
    ensures value { OnOk result (list.new.items ≡ list.old.items ++ regular_fields map.now) }
    ensures valid { OnOk result (IsValidMap map.now) }
{
    let _count = map.len();
    for (name, value) in map.iter() {
        list.push(regular_field(alloc, name.as_bytes(), value.as_bytes())?)?;
    }
    Ok(())
}

// Each item of a slice of bytes is below 256: its type says so.
fn are_bytes(bytes: &[u8])
    ensures { AreBytes bytes.now }
{
    let _ = bytes;
}

/// Reads the bytes of a part that may be missing.
pub(crate) fn visit_text(text: Option<&str>)
    ensures { IfSome (option_copied text.entry) AreBytes }
{
    if let Some(text) = text {
        are_bytes(text.as_bytes());
    }
}

/// Reads each name and value of a map.
pub(crate) fn visit_regular(map: &HeaderMap)
    ensures valid { IsValidMap map.now }
    ensures of_bytes { AllByRecursion IsFieldOfBytes (regular_fields map.now) }
{
    let _count = map.len();
    for (name, value) in map.iter() {
        are_bytes(name.as_bytes());
        are_bytes(value.as_bytes());
    }
}

//! The value of one name.

/// The value of the first field with a name, or no bytes.
#[derive(Clone, Copy)]
pub(crate) struct Slot<'a> {
    pub(crate) value: &'a [u8],
}

impl<'a> Slot<'a> {
    /// That of a name that no field has.
    pub(crate) const EMPTY: Slot<'static> = Slot { value: b"" };
}

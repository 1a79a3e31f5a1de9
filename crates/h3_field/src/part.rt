//! A name or a value, as a field lends it.
ghost use Rattle.std.specs.Prelude.{◌≡◌};
ghost use Rattle.h3_field.specs.FieldForm.{part_bytes};

/// A name or a value, as a field lends it: static bytes need no copy when the field goes.
#[derive(Clone, Copy)]
pub enum Part<'a> {
    /// Bytes that stay as long as the program runs.
    Static(&'static [u8]),
    /// Bytes of the field.
    Lent(&'a [u8]),
}

impl<'a> Part<'a> {
    /// The bytes, wherever they lie.
    pub fn bytes(&self) -> &[u8]
        ensures { result.now ≡ part_bytes self.now }
    {
        match self {
            Part::Static(bytes) => *bytes,
            Part::Lent(bytes) => *bytes,
        }
    }
}

//! Lists of fields in events.
ghost use Rattle.std.specs.Prelude.{◌≡◌};

use h3_field::HeaderField;
use std::marker::Model;

/// The fields of a header section or trailer that is sent, in their order (RFC 9110, section 5.2). A contract sees the list.
#[derive(Drop)]
pub struct FieldLines {
    fields: Vec<HeaderField>,
}

impl Model for FieldLines {
    ghost use Rattle.std.specs.Prelude.{List};
    ghost use Rattle.h3_field.specs.Field.{Field};

    ghost Value = { List Field };

    ghost view = { λ l. l.fields.items };
}

impl FieldLines {
    /// These fields.
    pub fn of(fields: Vec<HeaderField>) -> FieldLines
        ensures { result ≡ fields.items }
    {
        FieldLines { fields }
    }

    /// The fields.
    pub fn fields(&self) -> &[HeaderField]
        ensures { result.now ≡ self.now }
    {
        self.fields.as_slice()
    }
}

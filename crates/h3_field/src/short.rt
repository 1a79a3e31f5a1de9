//! Short bytes that lie in a field itself, so that it takes no memory.
ghost use Rattle.std.specs.Prelude.{◌≡◌, ◌+◌, ◌<◌, MatchOption, length};
ghost use Rattle.h3_field.specs.Field.{plain_field};

use std::marker::Model;

/// The longest value that lies in a field beside a static name.
const LONGEST_VALUE: usize = 36;

/// The most bytes of a name and a value that lie in a field together.
const LONGEST_FIELD: usize = 50;

/// A value that lies in its field. A contract sees the bytes.
#[derive(Drop)]
pub(crate) struct ShortValue {
    len: u16,
    bytes: [u8; LONGEST_VALUE],
}

impl Model for ShortValue {
    ghost use Rattle.std.specs.Prelude.{◌≤◌, ℕ, List, take};

    ghost Value = { List ℕ };

    ghost view = { λ v. take v.len v.bytes };

    ghost invariant = { λ v. v.len ≤ 36 };
}

impl ShortValue {
    /// A copy of a value. None: it is too long.
    pub(crate) fn of(value: &[u8]) -> Option<ShortValue>
        ensures { MatchOption result (36 < length value.now) (λ v. v ≡ value.now) }
    {
        let len = value.len();
        if len > LONGEST_VALUE {
            return None;
        }
        let mut bytes = [0; LONGEST_VALUE];
        bytes[..len].copy_from_slice(value);
        Some(ShortValue {
            len: len as u16,
            bytes,
        })
    }

    pub(crate) fn as_slice(&self) -> &[u8]
        ensures { result.now ≡ self.now }
    {
        &self.bytes[..usize::from(self.len)]
    }
}

/// A name and a value that lie in their field. A contract sees the two byte lists.
#[derive(Drop)]
pub(crate) struct ShortField {
    name_len: u16,
    value_len: u16,
    bytes: [u8; LONGEST_FIELD],
}

impl Model for ShortField {
    ghost use Rattle.std.specs.Prelude.{◌≤◌, ◌+◌, take, drop};
    ghost use Rattle.h3_field.specs.Field.{Field, plain_field};

    ghost Value = { Field };

    ghost view = { λ f. plain_field (take f.name_len f.bytes) (take f.value_len (drop f.name_len f.bytes)) };

    ghost invariant = { λ f. f.name_len + f.value_len ≤ 50 };
}

impl ShortField {
    /// Copies of a name and a value. None: they are too long.
    pub(crate) fn of(name: &[u8], value: &[u8]) -> Option<ShortField>
        ensures { MatchOption result (50 < length name.now + length value.now) (λ f. f ≡ plain_field name.now value.now) }
    {
        let name_len = name.len();
        let value_len = value.len();
        if name_len > LONGEST_FIELD || value_len > LONGEST_FIELD - name_len {
            return None;
        }
        let mut bytes = [0; LONGEST_FIELD];
        bytes[..name_len].copy_from_slice(name);
        bytes[name_len..name_len + value_len].copy_from_slice(value);
        Some(ShortField {
            name_len: name_len as u16,
            value_len: value_len as u16,
            bytes,
        })
    }

    pub(crate) fn name(&self) -> &[u8]
        ensures { result.now ≡ self.now.name }
    {
        &self.bytes[..usize::from(self.name_len)]
    }

    pub(crate) fn value(&self) -> &[u8]
        ensures { result.now ≡ self.now.value }
    {
        let start = usize::from(self.name_len);
        &self.bytes[start..start + usize::from(self.value_len)]
    }
}

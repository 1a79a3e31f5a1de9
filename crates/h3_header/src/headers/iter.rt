//! The fields of a header, one after the other.
ghost use Rattle.std.specs.Prelude.{◌≡◌, [], unwrap_or, IfOk};
ghost use Rattle.std.specs.Iterator.{item_count};
ghost use Rattle.h3_field.specs.Field.{plain_field};
ghost use Rattle.h3_header.specs.Left.{TakesField};
ghost use Rattle.h3_header.specs.Parts.{fields_of_pseudo};

use super::pseudo::Pseudo;
use super::write::{pseudo_field, regular_field, static_field};
use h3_field::HeaderField;
use http_header::{HeaderName, HeaderValue};
use std::alloc::{AllocError, Global};
use std::marker::Model;

/// The fields that are left. A field for which an allocation fails is skipped, and its refusal
/// stands in its place. At the end it goes on to return `None`.
#[derive(Drop)]
pub struct HeaderIter {
    pub(crate) alloc: Global,
    pub(crate) pseudo: Pseudo,
    pub(crate) regular: RegularIter,
}

/// The fields of a map that are left, and the name of the one before.
#[derive(Drop)]
pub(crate) struct RegularIter {
    pub(crate) last: Option<HeaderName>,
    pub(crate) rest: http_header::IntoIter<HeaderValue>,
}

impl Model for RegularIter {
    ghost use Rattle.std.specs.Prelude.{List};
    ghost use Rattle.h3_field.specs.Field.{Field};
    ghost use Rattle.h3_header.specs.Left.{owned_fields};

    ghost Value = { List Field };

    ghost view = { λ i. owned_fields i.last i.rest };
}

impl RegularIter {
    fn take_field(&mut self, alloc: Global) -> Option<Result<HeaderField, AllocError>>
        ensures { TakesField self.old result self.new }
    {
        let (name, value) = self.rest.next()?;
        let name = name.or(self.last.take());
        let field = make_field(alloc, &name, &value);
        self.last = name;
        Some(field)
    }
}

fn make_field(
    alloc: Global,
    name: &Option<HeaderName>,
    value: &HeaderValue,
) -> Result<HeaderField, AllocError>
    ensures { IfOk result (λ f. f ≡ plain_field (unwrap_or name.now []) value.now.bytes) }
{
    let name: &[u8] = match name {
        Some(name) => name.as_bytes(),
        None => &[],
    };
    regular_field(alloc, name, value.as_bytes())
}

impl Pseudo {
    // The first field that is left, which is taken.
    fn take_field(&mut self, alloc: Global) -> Option<Result<HeaderField, AllocError>>
        ensures { TakesField (fields_of_pseudo self.old) result (fields_of_pseudo self.new) }
    {
        if let Some(part) = self.method.take() {
            let field = pseudo_field(alloc, b":method", part.as_str());
            drop(part);
            return Some(field);
        }
        if let Some(part) = self.scheme.take() {
            let field = pseudo_field(alloc, b":scheme", part.as_str());
            drop(part);
            return Some(field);
        }
        if let Some(part) = self.authority.take() {
            let field = pseudo_field(alloc, b":authority", part.as_str());
            drop(part);
            return Some(field);
        }
        if let Some(part) = self.path.take() {
            let field = part.field(alloc);
            drop(part);
            return Some(field);
        }
        if let Some(part) = self.status.take() {
            return Some(Ok(static_field(b":status", part.as_str())));
        }
        if let Some(part) = self.protocol.take() {
            return Some(pseudo_field(alloc, b":protocol", part.as_str()));
        }
        None
    }
}

impl Model for HeaderIter {
    ghost use Rattle.std.specs.Prelude.{List, ◌++◌};
    ghost use Rattle.h3_field.specs.Field.{Field};
    ghost use Rattle.h3_header.specs.Parts.{fields_of_pseudo};

    ghost Value = { List Field };

    ghost view = { λ i. fields_of_pseudo i.pseudo ++ i.regular };
}

impl Iterator for HeaderIter {
    type Item = Result<HeaderField, AllocError>;

    ghost next_gives = { TakesField };

    ghost remaining = { item_count (λ it. it) };

    fn next(&mut self) -> Option<Result<HeaderField, AllocError>> {
        match self.pseudo.take_field(self.alloc) {
            Some(field) => Some(field),
            None => self.regular.take_field(self.alloc),
        }
    }
}

//! What the rules ask of a list, by one walk over it.
ghost use Rattle.std.specs.Prelude.{◌≡◌, false, not};
ghost use Rattle.std.specs.List.{list_any};
ghost use Rattle.h3_messages.specs.Known.{text};
ghost use Rattle.h3_messages.specs.Messages.{holds, repeats, value_of, pseudo_first, is_te_wrong, has_space_around};
ghost use Rattle.h3_messages.specs.Survey.{IsSeen, is_unknown_pseudo};

use crate::known::Known;
use crate::seen::Seen;
use h3_field::Fields;

/// A list, and what it holds. What it holds is lent and not copied: it is some 350 bytes.
#[derive(Clone, Copy)]
pub(crate) struct Survey<'a> {
    fields: &'a Fields<'a>,
    seen: &'a Seen<'a>,
    ghost surveyed: { IsSeen fields.now seen.now },
}

impl<'a> Survey<'a> {
    /// A list, all of whose fields were taken in.
    pub(crate) fn of(fields: &'a Fields<'a>, seen: &'a Seen<'a>) -> Survey<'a>
        requires { IsSeen fields.now seen.now }
        ensures { result.fields.now ≡ fields.now }
    {
        Survey { fields, seen }
    }

    /// Whether a field has the name.
    pub(crate) fn holds(&self, name: Known) -> bool
        ensures { result ≡ holds (text name) self.now.fields.now }
    {
        self.seen.there.has(name)
    }

    /// Whether two fields or more have the name.
    pub(crate) fn repeats(&self, name: Known) -> bool
        ensures { result ≡ repeats (text name) self.now.fields.now }
    {
        self.seen.repeated.has(name)
    }

    /// The value of the first field with the name, or no bytes.
    pub(crate) fn value_of(&self, name: Known) -> &'a [u8]
        ensures { result.now ≡ value_of (text name) self.now.fields.now }
    {
        self.seen.slots[name.place()].value
    }

    /// Whether a pseudo-header field stands after a regular one (RFC 9114, 4.3).
    pub(crate) fn is_out_of_order(&self) -> bool
        ensures { result ≡ not (pseudo_first self.now.fields.now) }
    {
        self.seen.is_out_of_order
    }

    // (for the proof: each pseudo-header field is one of requests or of responses)
    pub(crate) fn pseudo_are_known(&self)
        ensures { list_any is_unknown_pseudo self.now.fields.now ≡ false }
    {}

    /// The list.
    pub(crate) fn fields(&self) -> &'a Fields<'a>
        ensures { result.now ≡ self.now.fields.now }
    {
        self.fields
    }

    /// Whether a `te` is not `trailers` (RFC 9114, 4.2).
    pub(crate) fn has_wrong_te(&self) -> bool
        ensures { result ≡ is_te_wrong self.now.fields.now }
    {
        self.seen.has_wrong_te
    }

    /// Whether a value has white space around it (RFC 9114, 10.3).
    pub(crate) fn has_spaced_value(&self) -> bool
        ensures { result ≡ list_any has_space_around self.now.fields.now }
    {
        self.seen.has_spaced_value
    }
}

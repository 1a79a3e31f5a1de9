//! What the fields that came so far hold of all that the rules ask.
ghost use Rattle.std.specs.Prelude.{◌≡◌, ◌<◌, ◌≤◌, ◌==◌, ◌||◌, ◌&&◌, not, codes, [], length, slice_index_or, if◌then◌else◌, true, false};
ghost use Rattle.std.specs.Prelude.{Some, None, OnErr, OnOk, IfOk, IfErr};
ghost use Rattle.h3_header.specs.BadPart.{refusal_of};
ghost use Rattle.h3_header.specs.Head.{Head};
ghost use Rattle.h3_header.specs.HeadRead.{IsHead, IsNone, head_by, is_name_at};
ghost use Rattle.h3_header.specs.Reads.{kind_of};
ghost use Rattle.h3_messages.specs.Known.{place, known_of};
ghost use Rattle.h3_messages.specs.Messages.{is_pseudo, is_word};
ghost use Rattle.h3_messages.specs.Outline.{IsOutlined};

use crate::known::Known;
use crate::name_set::NameSet;
use crate::outline::Outline;
use crate::slot::Slot;
use crate::text::{has_space_around, is_word};
use h3_field::{FieldRef, Fields};
use h3_header::{BadPart, FieldKind, field_kind};

/// What the fields that came so far hold.
#[derive(Drop)]
pub(crate) struct Seen<'a> {
    pub(crate) slots: [Slot<'a>; Known::COUNT],
    /// The names that a field has.
    pub(crate) there: NameSet,
    /// Those that two fields or more have.
    pub(crate) repeated: NameSet,
    pub(crate) has_regular: bool,
    pub(crate) is_out_of_order: bool,
    pub(crate) has_wrong_te: bool,
    pub(crate) has_spaced_value: bool,
}

impl<'a> Seen<'a> {
    ghost use Rattle.h3_messages.specs.Survey.{IsSeen, TakesField, TakesKnown};
    ghost use Rattle.h3_messages.specs.declared.known.Known.{Known};
    ghost use Rattle.h3_messages.specs.declared.slot.Slot.{Slot};

    /// What no field holds.
    pub(crate) fn new() -> Seen<'a>
        ensures { IsSeen [] result }
    {
        Seen {
            slots: [Slot::EMPTY; Known::COUNT],
            there: NameSet::none(),
            repeated: NameSet::none(),
            has_regular: false,
            is_out_of_order: false,
            has_wrong_te: false,
            has_spaced_value: false,
        }
    }

    /// Takes each field of the list, if nothing is malformed of any by itself, or else answers the first part that is. No field was taken
    /// before. `:protocol` may be any token of at most 31 bytes, or one of the two names alone. The kind that this tells of a field is the
    /// name of a pseudo-header field, which is compared with no other. It answers the outline of the header that the list is.
    #[inline(never)]
    pub(crate) fn take_good(
        &mut self,
        fields: &Fields<'a>,
        any_protocol: bool,
    ) -> Result<Outline, BadPart>
        requires none { IsSeen [] self.old }
        ensures seen { OnOk result (IsSeen fields.now self.new) }
        ensures outline { IfOk result (λ o. length fields.now ≤ 24576 → IsOutlined (head_by any_protocol fields.now) o) }
        ensures err { IfErr result (λ part. length fields.now ≤ 24576 → head_by any_protocol fields.now ≡ IsNone (refusal_of part)) }
        ensures bad { OnErr result ((h : Head) → head_by any_protocol fields.now ≡ IsHead h → ⊥) }
    {
        h3_header::laws::lists_are_their_value();
        h3_header::laws::fields_are_judged_alone();
        let mut outline = Outline::empty();
        'fields: for place in 0..fields.len() {
            let field = fields.get(place);
            match field_kind(&field, any_protocol) {
                Ok(kind) => {
                    outline = outline.with(kind, &field);
                    self.take_of(kind, &field);
                }
                Err(part) => return Err(part),
            }
        }
        Ok(outline)
    }

    // One field more, of this kind, whose name may stand there.
    #[inline(always)]
    fn take_of(&mut self, kind: FieldKind, field: &FieldRef<'a>)
        requires kind { kind ≡ kind_of field.now.name }
        requires good { is_name_at kind field.now.name ≡ true }
        ensures { TakesField field.now self.old self.new }
    {
        match Known::of_kind(kind) {
            Some(known) => self.take_pseudo(known, field),
            None => self.take_regular(field),
        }
    }

    // RFC 9114 4.3: pseudo-header fields come first
    // One pseudo-header field more, of this name.
    #[inline(always)]
    fn take_pseudo(&mut self, known: Known, field: &FieldRef<'a>)
        requires named { Some known ≡ known_of field.now.name }
        requires pseudo { is_pseudo field.now ≡ true }
        ensures { TakesField field.now self.old self.new }
    {
        let value = field.value();
        note(&mut self.has_spaced_value, has_space_around(value));
        let is_late = self.has_regular;
        note(&mut self.is_out_of_order, is_late);
        self.take_known(known, value);
    }

    // One regular field more.
    #[inline(always)]
    fn take_regular(&mut self, field: &FieldRef<'a>)
        requires { is_pseudo field.now ≡ false }
        ensures { TakesField field.now self.old self.new }
    {
        let value = field.value();
        note(&mut self.has_spaced_value, has_space_around(value));
        self.has_regular = true;
        match Known::of_regular(field.name()) {
            Some(known) => self.take_known(known, value),
            None => {}
        }
    }

    // One field more with this name.
    fn take_known(&mut self, known: Known, value: &'a [u8])
        ensures { TakesKnown known value.now self.old self.new }
    {
        if self.there.has(known) {
            self.repeated = self.repeated.with(known);
        } else {
            let place = place_in(&self.slots, known);
            self.slots[place] = Slot { value };
            self.there = self.there.with(known);
        }
        if let Known::Te = known {
            note(&mut self.has_wrong_te, !is_word(b"trailers", value));
        }
    }
}

// The place at which the slots have what is known of a name.
fn place_in(slots: &[Slot<'_>], known: Known) -> usize
    requires { length slots.now ≡ 14 }
    ensures place { result ≡ place known }
    ensures within { result < length slots.now }
{
    known.place()
}

// Sets the flag if this was found.
fn note(flag: &mut bool, found: bool)
    ensures { flag.new ≡ (flag.old || found) }
{
    if found {
        *flag = true;
    }
}

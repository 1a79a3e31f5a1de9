//! The field lines of a section, read against a table (RFC 9204, section 4.5).
ghost use Rattle.std.specs.Prelude.{◌≡◌, ◌+◌, ◌-◌, ◌^◌, ◌<◌, ◌≤◌, true, length, min, bytes_eq, IfSome, IfNone, IfOk, Some, None};
ghost use Rattle.std.specs.Prelude.{MatchResult};
ghost use Rattle.h3_field.specs.Field.{Field, field_size};
ghost use Rattle.h3_field.specs.Shapes.{begins};
ghost use Rattle.h3_field.specs.declared.decoder_error.DecoderError.TheVariants.{InvalidIndex};
ghost use Rattle.h3_field.specs.declared.vas.Error.TheVariants.{RelativeIndex, PostbaseIndex};
ghost use Rattle.h3_table.specs.TableState.{entry_at};
ghost use Rattle.h3_field.specs.LineAnswer.{short_named_line};
ghost use Rattle.h3_qpack.specs.Meaning.{up_to, field_at};
ghost use Rattle.h3_qpack.specs.SectionAnswers.{AnswersLineAt, BeginsWith};

use h3_field::block::{
    HeaderBlockField, Indexed, IndexedWithPostBase, Literal, LiteralWithNameRef,
    LiteralWithPostBaseNameRef, NameRef,
};
use h3_field::static_::StaticTable;
use h3_field::{DecoderError, FieldRef, HeaderField, ShortString, SliceCursor, prefix_int, vas};
use h3_table::entries::{Entries, Entry};
use std::alloc::{AllocError, Global};
use std::borrow::CowSlice;
use std::marker::Model;

/// The field of a line. What is an entry's is not copied yet.
#[derive(Drop)]
pub(crate) struct LineField<'t> {
    source: Source<'t>,
}

#[derive(Drop)]
pub(crate) enum Source<'t> {
    /// A field that is no entry's.
    Own(HeaderField),
    /// An entry.
    Entry(Entry<'t>),
    /// A value under the name of an entry, and the bit N. Its block has room for the name, if that is not static, is not longer than
    /// `longest_name`, and the value is not empty.
    Named(Entry<'t>, Vec<u8>, bool),
}

/// The name and the value of an entry, where they lie.
#[tactic(auto, using(h3_field::specs::FieldLaws::plain_is))]
pub(crate) fn lent<'a>(entry: &'a Entry<'_>) -> FieldRef<'a>
    ensures { result ≡ entry.now }
{
    // (for the proof: no entry has the flag)
    entry.is_plain();
    FieldRef::new(entry.name(), entry.value())
}

impl<'t> Model for LineField<'t> {
    ghost use Rattle.h3_field.specs.Field.{Field};
    ghost use Rattle.h3_qpack.specs.LineFields.{field_from};

    ghost Value = { Field };

    ghost view = { λ l. field_from l.source };
}

impl<'t> LineField<'t> {
    fn own(field: HeaderField) -> LineField<'t>
        ensures { result ≡ field }
    {
        LineField {
            source: Source::Own(field),
        }
    }

    fn entry(entry: Entry<'t>) -> LineField<'t>
        ensures { result ≡ entry.entry }
    {
        LineField {
            source: Source::Entry(entry),
        }
    }

    fn named(entry: Entry<'t>, value: Vec<u8>, never_indexed: bool) -> LineField<'t>
        ensures { result ≡ record { name = entry.entry.name; value = value.items; never_indexed = never_indexed } }
    {
        LineField {
            source: Source::Named(entry, value, never_indexed),
        }
    }

    pub(crate) fn name(&self) -> &[u8]
        ensures { result.now ≡ self.now.name }
    {
        match &self.source {
            Source::Own(field) => field.name(),
            Source::Entry(entry) => entry.name(),
            Source::Named(entry, _, _) => entry.name(),
        }
    }

    pub(crate) fn value(&self) -> &[u8]
        ensures { result.now ≡ self.now.value }
    {
        match &self.source {
            Source::Own(field) => field.value(),
            Source::Entry(entry) => entry.value(),
            Source::Named(_, value, _) => value.as_slice(),
        }
    }

    /// The name, the value and the flag, where they lie.
    pub(crate) fn lent(&self) -> FieldRef<'_>
        ensures { result ≡ self.now }
    {
        match &self.source {
            Source::Own(field) => FieldRef::of(field),
            Source::Entry(entry) => lent(entry),
            Source::Named(entry, value, never_indexed) => {
                FieldRef::new(entry.name(), value.as_slice()).with_never_indexed(*never_indexed)
            }
        }
    }

    /// The size of the field, which stops at the greatest number (RFC 9204, section 3.2.1).
    pub(crate) fn mem_size(&self) -> usize
        ensures { result ≡ min (2 ^ 64 - 1) (field_size self.now) }
    {
        self.name()
            .len()
            .saturating_add(self.value().len())
            .saturating_add(32)
    }

    pub(crate) fn has_name(&self, name: &[u8]) -> bool
        ensures { result ≡ bytes_eq self.now.name name.now }
    {
        self.name() == name
    }

    /// A copy of the value.
    pub(crate) fn copy_value(&self, alloc: Global) -> Result<Vec<u8>, AllocError>
        ensures { IfOk result (λ v. v.items ≡ self.now.value) }
    {
        Vec::from_slice(alloc, self.value())
    }
}

// RFC 9204 3.2.5: relative index
/// The entry at a distance below the base.
pub(crate) fn relative(
    entries: &Entries,
    base: usize,
    index: usize,
) -> Result<Entry<'_>, DecoderError>
    ensures { MatchResult result (λ f. entry_at entries.now (base - index) ≡ Some f)
        (λ e. (entry_at entries.now (base - index) ≡ None) × (e ≡ InvalidIndex (RelativeIndex index))) }
{
    match entries.get(base.saturating_sub(index)) {
        Some(entry) => Ok(entry),
        None => Err(DecoderError::InvalidIndex(vas::Error::RelativeIndex(index))),
    }
}

/// How many bytes the name of an entry takes in the block of a field with another value. One of more than `most` bytes gets no room there.
fn name_room(found: Result<Entry<'_>, DecoderError>, most: usize) -> usize {
    match found {
        Ok(entry) => {
            let len = entry.owned_name_len();
            if len <= most { len } else { 0 }
        }
        Err(_) => 0,
    }
}

/// How many bytes the name to which the line or instruction at the front refers takes in the block of its field. It takes none if it is
/// static, if it has more than `most` bytes or its entry is not there, or if its index is not whole. The index lies below the bit T, in
/// `size` bits. It is read ahead of the value, so that the value's block gets this room: no clause depends on it.
pub(crate) fn relative_name_room(
    entries: &Entries,
    base: usize,
    size: u8,
    most: usize,
    buf: &SliceCursor<'_>,
) -> usize
    requires least { 1 ≤ size }
    requires most { size ≤ 7 }
    requires some { 0 < length buf.now }
{
    if buf.chunk()[0] >> size & 1 == 1 {
        return 0;
    }
    let mut ahead = SliceCursor::new(buf.chunk());
    match prefix_int::decode(size, &mut ahead) {
        Ok((_, index)) => name_room(relative(entries, base, index as usize), most),
        Err(_) => 0,
    }
}

/// The lines of a section with a base, over a table.
#[derive(Drop)]
pub(crate) struct Lines<'t> {
    alloc: Global,
    entries: &'t Entries,
    base: usize,
    // no line names an entry above this number
    most: usize,
    // a longer name of an entry gets no room after a value, since its field would pass the limit
    longest_name: usize,
}

impl<'t> Model for Lines<'t> {
    ghost use Rattle.h3_qpack.specs.Meaning.{up_to};
    ghost use Rattle.h3_qpack.specs.Views.{Based};

    ghost Value = { Based };

    ghost view = { λ l. record { table = up_to l.most l.entries.now; base = l.base } };
}

impl<'t> Lines<'t> {
    /// The lines of a section that may name the entries up to a number, and whose fields are kept up to a limit, which is the most bytes
    /// that a name may have.
    pub(crate) fn new(
        alloc: Global,
        entries: &'t Entries,
        base: usize,
        most: usize,
        longest_name: usize,
    ) -> Lines<'t>
        ensures { result ≡ record { table = up_to most entries.now; base = base } }
    {
        Lines {
            alloc,
            entries,
            base,
            most,
            longest_name,
        }
    }

    pub(crate) fn alloc(&self) -> Global {
        self.alloc
    }

    // RFC 9204 2.2.3: entries from the required insert count on
    /// The entry at a distance below the base, if the section may name it.
    #[inline(always)]
    pub(crate) fn relative(&self, index: usize) -> Result<Entry<'t>, DecoderError>
        ensures { MatchResult result (λ f. entry_at self.now.table (self.now.base - index) ≡ Some f)
            (λ e. (entry_at self.now.table (self.now.base - index) ≡ None) × (e ≡ InvalidIndex (RelativeIndex index))) }
    {
        let number = self.base.saturating_sub(index);
        if number > self.most {
            return Err(DecoderError::InvalidIndex(vas::Error::RelativeIndex(index)));
        }
        match self.entries.get(number) {
            Some(entry) => Ok(entry),
            None => Err(DecoderError::InvalidIndex(vas::Error::RelativeIndex(index))),
        }
    }

    // RFC 9204 3.2.6: post-base index
    /// The entry at a distance from the base on, if the section may name it.
    pub(crate) fn post_base(&self, index: usize) -> Result<Entry<'t>, DecoderError>
        ensures { MatchResult result (λ f. entry_at self.now.table (self.now.base + index + 1) ≡ Some f)
            (λ e. (entry_at self.now.table (self.now.base + index + 1) ≡ None) × (e ≡ InvalidIndex (PostbaseIndex index))) }
    {
        if self.base.saturating_add(index) >= self.most {
            return Err(DecoderError::InvalidIndex(vas::Error::PostbaseIndex(index)));
        }
        match self.entries.get(self.base + index + 1) {
            Some(entry) => Ok(entry),
            None => Err(DecoderError::InvalidIndex(vas::Error::PostbaseIndex(index))),
        }
    }

    /// How many bytes the name takes to which the line at the front refers by the distance from the base on, as `relative_name_room`.
    fn post_base_name_room(&self, buf: &SliceCursor<'_>) -> usize {
        let mut ahead = SliceCursor::new(buf.chunk());
        match prefix_int::decode(3, &mut ahead) {
            Ok((_, index)) => name_room(self.post_base(index as usize), self.longest_name),
            Err(_) => 0,
        }
    }

    /// The field of an indexed line.
    fn take_indexed(&self, buf: &mut SliceCursor<'_>) -> Result<LineField<'t>, DecoderError>
        requires some { 0 < length buf.old }
        requires own { begins 128 255 buf.old ≡ true }
        ensures { AnswersLineAt self.now.table self.now.base buf.old buf.new result }
    {
        match Indexed::decode(buf)? {
            Indexed::Static(index) => Ok(LineField::own(StaticTable::get(index)?)),
            Indexed::Dynamic(index) => Ok(LineField::entry(self.relative(index)?)),
        }
    }

    /// The field of a line that is an entry, by its distance from the base on.
    fn take_post_base(&self, buf: &mut SliceCursor<'_>) -> Result<LineField<'t>, DecoderError>
        requires some { 0 < length buf.old }
        requires own { begins 16 31 buf.old ≡ true }
        ensures { AnswersLineAt self.now.table self.now.base buf.old buf.new result }
    {
        let line = IndexedWithPostBase::decode(buf)?;
        let entry = self.post_base(line.0)?;
        Ok(LineField::entry(entry))
    }

    /// The field of a line with a literal value and the name of an entry, if it takes no memory. None: it may take some, or the line is
    /// refused. Then nothing is taken.
    fn take_short_named(&self, buf: &mut SliceCursor<'_>) -> Option<HeaderField>
        requires some { 0 < length buf.old }
        requires own { begins 64 127 buf.old ≡ true }
        ensures some { IfSome result (λ f. BeginsWith self.now.table self.now.base buf.old f buf.new) }
        ensures none { IfNone result (buf.new ≡ buf.old) }
    {
        let mut ahead = SliceCursor::new(buf.chunk());
        let mut value = ShortString::new();
        let head = LiteralWithNameRef::decode_short(&mut ahead, &mut value)?;
        let field = self.short_field(head, value.as_slice())?;
        *buf = ahead;
        Some(field)
    }

    /// The field of the name of an entry, the bit N and a value, if it takes no memory.
    fn short_field(&self, head: (NameRef, bool), value: &[u8]) -> Option<HeaderField>
        ensures { IfSome result (λ f. field_at self.now.table self.now.base (short_named_line value.now head) ≡ Some f) }
    {
        let (name, never_indexed) = head;
        match name {
            NameRef::Static(index) => match StaticTable::get_name(index) {
                Ok(name) => {
                    let field = HeaderField::short_with_static_name(name, value)?;
                    Some(field.with_never_indexed(never_indexed))
                }
                Err(_) => None,
            },
            NameRef::Dynamic(index) => match self.relative(index) {
                Ok(entry) => {
                    let field = entry.with_short_value(value)?;
                    Some(field.with_never_indexed(never_indexed))
                }
                Err(_) => None,
            },
        }
    }

    /// The field of a line with a literal value and the name of an entry.
    #[inline(never)]
    fn take_named(&self, buf: &mut SliceCursor<'_>) -> Result<LineField<'t>, DecoderError>
        requires some { 0 < length buf.old }
        requires own { begins 64 127 buf.old ≡ true }
        ensures { AnswersLineAt self.now.table self.now.base buf.old buf.new result }
    {
        match self.take_short_named(buf) {
            Some(field) => Ok(LineField::own(field)),
            None => self.take_long_named(buf),
        }
    }

    /// The same with memory for the value.
    fn take_long_named(&self, buf: &mut SliceCursor<'_>) -> Result<LineField<'t>, DecoderError>
        requires some { 0 < length buf.old }
        requires own { begins 64 127 buf.old ≡ true }
        ensures { AnswersLineAt self.now.table self.now.base buf.old buf.new result }
    {
        let spare = relative_name_room(self.entries, self.base, 4, self.longest_name, buf);
        match LiteralWithNameRef::decode_with_room(self.alloc, buf, spare)? {
            LiteralWithNameRef::Static {
                index,
                value,
                never_indexed,
            } => {
                let field = HeaderField::with_static_name(StaticTable::get_name(index)?, value);
                Ok(LineField::own(field.with_never_indexed(never_indexed)))
            }
            LiteralWithNameRef::Dynamic {
                index,
                value,
                never_indexed,
            } => Ok(LineField::named(self.relative(index)?, value, never_indexed)),
        }
    }

    /// The field of a line with a literal value and the name of an entry, by its distance from the base on, if it takes no memory. None: it
    /// may take some, or the line is refused. Then nothing is taken.
    fn take_short_post_base_named(&self, buf: &mut SliceCursor<'_>) -> Option<HeaderField>
        requires some { 0 < length buf.old }
        requires own { begins 0 15 buf.old ≡ true }
        ensures some { IfSome result (λ f. BeginsWith self.now.table self.now.base buf.old f buf.new) }
        ensures none { IfNone result (buf.new ≡ buf.old) }
    {
        let mut ahead = SliceCursor::new(buf.chunk());
        let mut value = ShortString::new();
        let head = LiteralWithPostBaseNameRef::decode_short(&mut ahead, &mut value)?;
        let Ok(entry) = self.post_base(head.0) else {
            return None;
        };
        let field = entry.with_short_value(value.as_slice())?;
        *buf = ahead;
        Some(field.with_never_indexed(head.1))
    }

    /// The field of a line with a literal value and the name of an entry, by its distance from the base on.
    #[inline(never)]
    fn take_post_base_named(&self, buf: &mut SliceCursor<'_>) -> Result<LineField<'t>, DecoderError>
        requires some { 0 < length buf.old }
        requires own { begins 0 15 buf.old ≡ true }
        ensures { AnswersLineAt self.now.table self.now.base buf.old buf.new result }
    {
        match self.take_short_post_base_named(buf) {
            Some(field) => Ok(LineField::own(field)),
            None => self.take_long_post_base_named(buf),
        }
    }

    /// The same with memory for the value.
    fn take_long_post_base_named(
        &self,
        buf: &mut SliceCursor<'_>,
    ) -> Result<LineField<'t>, DecoderError>
        requires some { 0 < length buf.old }
        requires own { begins 0 15 buf.old ≡ true }
        ensures { AnswersLineAt self.now.table self.now.base buf.old buf.new result }
    {
        let spare = self.post_base_name_room(buf);
        let line = LiteralWithPostBaseNameRef::decode_with_room(self.alloc, buf, spare)?;
        let entry = self.post_base(line.index)?;
        Ok(LineField::named(entry, line.value, line.never_indexed))
    }

    /// The field of a line with a literal name and value.
    #[inline(never)]
    fn take_literal(&self, buf: &mut SliceCursor<'_>) -> Result<LineField<'t>, DecoderError>
        requires some { 0 < length buf.old }
        requires own { begins 32 63 buf.old ≡ true }
        ensures { AnswersLineAt self.now.table self.now.base buf.old buf.new result }
    {
        match Literal::decode_short(buf) {
            Some(field) => Ok(LineField::own(field)),
            None => self.take_long_literal(buf),
        }
    }

    /// The same with memory for both.
    fn take_long_literal(&self, buf: &mut SliceCursor<'_>) -> Result<LineField<'t>, DecoderError>
        requires some { 0 < length buf.old }
        requires own { begins 32 63 buf.old ≡ true }
        ensures { AnswersLineAt self.now.table self.now.base buf.old buf.new result }
    {
        let line = Literal::decode(self.alloc, buf)?;
        let field = HeaderField::new(CowSlice::Owned(line.name), CowSlice::Owned(line.value));
        Ok(LineField::own(field.with_never_indexed(line.never_indexed)))
    }

    /// The field of the line at the front.
    pub(crate) fn take(&self, buf: &mut SliceCursor<'_>) -> Result<LineField<'t>, DecoderError>
        requires { 0 < length buf.old }
        ensures { AnswersLineAt self.now.table self.now.base buf.old buf.new result }
    {
        match HeaderBlockField::decode(buf.chunk()[0]) {
            HeaderBlockField::Indexed => self.take_indexed(buf),
            HeaderBlockField::LiteralWithNameRef => self.take_named(buf),
            HeaderBlockField::Literal => self.take_literal(buf),
            HeaderBlockField::IndexedWithPostBase => self.take_post_base(buf),
            HeaderBlockField::LiteralWithPostBaseNameRef => { self.take_post_base_named(buf) }
            HeaderBlockField::Unknown => Err(DecoderError::UnexpectedEnd),
        }
    }
}

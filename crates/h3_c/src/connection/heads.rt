//! The header and trailer sections that C sends.
ghost use Rattle.std.specs.Prelude.{◌≡◌, List, Option};
ghost use Rattle.h3_field.specs.BorrowedFields.{in_front_of};
ghost use Rattle.h3_field.specs.Field.{Field};
ghost use Rattle.h3_session.specs.SendingLists.{SendsFieldList, SendsTrailerList, order_refusal, place_refusal};
ghost use Rattle.h3_c.specs.Exported.{OnStream, SendsCut};
ghost use Rattle.h3_c.specs.Given.{fields_given};
ghost use Rattle.h3_c.specs.Giving.{RefusesFields};

use super::Connection;
use crate::fields::{FieldSize, given_fields};
use crate::numbers::{ARGUMENT, Told, listed, refused};
use h3_field::BorrowedFields;
use h3_proto::stream::StreamId;
use std::alloc::Global;
use std::mem;

impl Connection {
    // No field yet of these bytes, with the memory that is kept for the places of fields.
    #[inline(always)]
    fn borrowed(&mut self, alloc: Global, bytes: &'static [u8]) -> BorrowedFields<'static>
        ensures list { result ≡ in_front_of bytes.now }
        ensures same { self.new ≡ self.old }
    {
        let spare = mem::replace(&mut self.spare, BorrowedFields::new(alloc));
        spare.over(bytes)
    }

    /// A header section goes out on a stream, as it is.
    pub(crate) fn send_head(
        &mut self,
        alloc: Global,
        id: u64,
        sizes: &[FieldSize],
        flags: &[u8],
        bytes: &'static [u8],
    ) -> Told
        ensures does { OnStream id result self.old self.new
            (SendsCut (fields_given sizes.now flags.now bytes.now) (λ e. place_refusal e id) result self.old self.new
            (λ fields call. SendsFieldList self.old.endpoint self.new.endpoint id fields call)) }
        ensures sessions { self.new.sessions ≡ self.old.sessions }
    {
        let Ok(stream) = StreamId::try_from(id) else {
            return ARGUMENT;
        };
        let mut list = self.borrowed(alloc, bytes);
        let told = match given_fields(&mut list, sizes, flags, bytes) {
            Ok(()) => {
                let fields = list.fields();
                let call = self.endpoint.send_fields(stream, &fields);
                listed(&call, &self.endpoint, &fields)
            }
            Err(told) => self.head_not_cut(stream, told),
        };
        self.spare = list.over(b"");
        told
    }

    // The answer for a list that was not cut. If its stream takes none, it says so rather than out of memory.
    #[tactic(auto, using(crate::proofs::Uncut::no_sizes, crate::proofs::Uncut::not_taken, crate::proofs::Uncut::no_room))]
    fn head_not_cut(&self, stream: StreamId, told: Told) -> Told
        ensures { (cut : Option (List Field)) → RefusesFields cut told
            → SendsCut cut (λ e. place_refusal e stream) result self.now self.now
            (λ fields call. SendsFieldList self.now.endpoint self.now.endpoint stream fields call) }
    {
        if told.number == ARGUMENT.number {
            return told;
        }
        match self.endpoint.head_refusal(stream) {
            Some(refusal) => refused(refusal),
            None => told,
        }
    }

    /// A trailer section goes out on a stream, as it is.
    pub(crate) fn send_trailer(
        &mut self,
        alloc: Global,
        id: u64,
        sizes: &[FieldSize],
        flags: &[u8],
        bytes: &'static [u8],
    ) -> Told
        ensures does { OnStream id result self.old self.new
            (SendsCut (fields_given sizes.now flags.now bytes.now) (λ e. order_refusal e id) result self.old self.new
            (λ fields call. SendsTrailerList self.old.endpoint self.new.endpoint id fields call)) }
        ensures sessions { self.new.sessions ≡ self.old.sessions }
    {
        let Ok(stream) = StreamId::try_from(id) else {
            return ARGUMENT;
        };
        let mut list = self.borrowed(alloc, bytes);
        let told = match given_fields(&mut list, sizes, flags, bytes) {
            Ok(()) => {
                let fields = list.fields();
                let call = self.endpoint.send_trailer_fields(stream, &fields);
                listed(&call, &self.endpoint, &fields)
            }
            Err(told) => self.trailer_not_cut(stream, told),
        };
        self.spare = list.over(b"");
        told
    }

    // The same of a trailer.
    #[tactic(auto, using(crate::proofs::Uncut::no_sizes, crate::proofs::Uncut::not_taken, crate::proofs::Uncut::no_room))]
    fn trailer_not_cut(&self, stream: StreamId, told: Told) -> Told
        ensures { (cut : Option (List Field)) → RefusesFields cut told
            → SendsCut cut (λ e. order_refusal e stream) result self.now self.now
            (λ fields call. SendsTrailerList self.now.endpoint self.now.endpoint stream fields call) }
    {
        if told.number == ARGUMENT.number {
            return told;
        }
        match self.endpoint.trailer_refusal(stream) {
            Some(refusal) => refused(refusal),
            None => told,
        }
    }
}

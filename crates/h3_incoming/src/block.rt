//! The answer of a pull whose header and trailer sections are the lists of fields that came, in a block of memory that serves again.
ghost use Rattle.std.specs.Prelude.{◌≡◌, List, [], Option, None, IfSome, false};
ghost use Rattle.h3_field.specs.Field.{Field};
ghost use Rattle.h3_header.specs.Reads.{head_of_fields};
ghost use Rattle.h3_connection.specs.Lists.{list_of, pull_of};
ghost use Rattle.h3_connection.specs.declared.lists.ListItem.TheVariants as listed;
ghost use Rattle.h3_connection.specs.declared.lists.ListPull.TheVariants as answer;
ghost use Rattle.h3_incoming.specs.Answering.{fault_told, has_header, plain_pull};
ghost use Rattle.h3_incoming.specs.BlockPulls.{fields_kept, listed_as, plain_answer, told_with, HasStatus};
ghost use Rattle.h3_incoming.specs.HeaderSlots.{IsMadeOf};

use crate::answer::{MessageKind, Plain, item_of, plain_of, pull_of_plain};
use crate::header_slot::HeaderSlot;
use h3_connection::event::{Fault, Pull};
use h3_connection::lists::{ListItem, ListPull};
use h3_field::{FieldBlock, Fields};
use http::StatusCode;
use std::alloc::Global;
use std::boxed::Box;
use std::marker::Model;
use std::mem;

/// What an answer says beside the fields of a header or trailer section.
#[derive(Drop)]
pub enum Told {
    /// The fields are those of a header or trailer section, and this is the status of a response's header section.
    Message(MessageKind, Option<StatusCode>),
    /// There is none.
    Plain(Plain),
}

/// An answer as `ListPull` has it, whose fields lie in a block. The next header or trailer section is written in the place of the last
/// one, and takes memory only if it is longer. A contract sees the `ListPull` that it stands for.
#[derive(Drop)]
pub struct BlockPull {
    told: Told,
    block: FieldBlock,
}

impl Model for BlockPull {
    ghost use Rattle.h3_connection.specs.declared.lists.ListPull.{ListPull};
    ghost use Rattle.h3_incoming.specs.BlockPulls.{told_with, HasStatus};

    ghost Value = { ListPull };

    ghost view = { λ p. told_with p.told p.block };

    ghost invariant = { λ p. HasStatus p.told p.block };
}

impl BlockPull {
    /// That the next item isn't there yet. It takes no memory.
    pub fn new(alloc: Global) -> BlockPull
        ensures { result ≡ answer.Pending }
    {
        BlockPull {
            told: Told::Plain(Plain::Pending),
            block: FieldBlock::new(alloc),
        }
    }

    /// What the answer says, the fields aside.
    pub fn told(&self) -> &Told
        ensures is { self.now ≡ told_with result.now (fields_kept self.now) }
        ensures status { HasStatus result.now (fields_kept self.now) }
    {
        &self.told
    }

    /// The block with the fields of a header or trailer section. After another answer it holds anything.
    pub fn block(&self) -> &FieldBlock
        ensures { IfSome (list_of self.now) (λ fields. result.now ≡ fields) }
    {
        &self.block
    }

    /// The fields of a header or trailer section, as they came and in the order in which they came. After another answer they are any.
    pub fn fields(&self) -> Fields<'_>
        ensures { IfSome (list_of self.now) (λ fields. result ≡ fields) }
    {
        self.block.fields()
    }

    /// The answer, with the header that was made of its list in the place of the list.
    pub fn with_header(self, header: HeaderSlot) -> Pull
        requires { IsMadeOf header (list_of self) }
        ensures { result ≡ pull_of self }
    {
        let BlockPull { told, block } = self;
        drop(block);
        match told {
            Told::Message(kind, _) => match header {
                HeaderSlot::Made(header) => Pull::Item(item_of(kind, Box::into_inner(header))),
                HeaderSlot::Unasked | HeaderSlot::Asked => unreachable!(),
            },
            Told::Plain(plain) => pull_of_plain(plain),
        }
    }

    /// The answer, with its block as the list of a header or trailer section. Nothing is copied.
    pub fn into_pull(self) -> ListPull
        ensures { result ≡ self }
    {
        let BlockPull { told, block } = self;
        match told {
            Told::Message(kind, _) => ListPull::Item(listed(kind, block)),
            Told::Plain(plain) => of_plain(plain),
        }
    }

    /// An answer with no header or trailer section takes the place of what was there.
    pub fn give(&mut self, answer: Plain)
        ensures { self.new ≡ plain_answer answer }
    {
        self.told = Told::Plain(answer);
    }

    /// There is this fault.
    pub fn fail(&mut self, fault: Fault)
        ensures { self.new ≡ answer.Fault fault }
    {
        self.give(Plain::Fault(fault));
    }

    /// The next item isn't there yet.
    pub fn pause(&mut self)
        ensures { self.new ≡ answer.Pending }
    {
        self.give(Plain::Pending);
    }

    /// The next header or trailer section needs so many insertions.
    pub fn wait(&mut self, count: usize)
        ensures { self.new ≡ answer.Waiting count }
    {
        self.give(Plain::Waiting(count));
    }

    /// The stream has ended, and all of it was returned.
    pub fn end(&mut self)
        ensures { self.new ≡ answer.Item listed.End }
    {
        self.give(Plain::End);
    }

    /// The stream has no messages for this side.
    pub fn no_messages(&mut self)
        ensures { self.new ≡ answer.NoMessages }
    {
        self.give(Plain::NoMessages);
    }

    /// An answer that was made elsewhere, if it has no `Header`. One that has becomes `Fault::Memory`.
    pub fn give_made(&mut self, answer: Pull)
        ensures is { has_header answer ≡ false → pull_of self.new ≡ answer }
        ensures none { list_of self.new ≡ None }
    {
        self.give(plain_of(answer));
    }

    /// The answer is the header or trailer section of this kind that these fields are, with this status. It takes no memory.
    pub(crate) fn give_message(
        &mut self,
        kind: MessageKind,
        status: Option<StatusCode>,
        fields: FieldBlock,
    )
        requires { status ≡ (head_of_fields fields).status }
        ensures { self.new ≡ answer.Item (listed_as kind fields) }
    {
        self.told = Told::Message(kind, status);
        self.block = fields;
    }

    /// An empty block for the fields of a section, with the memory of the last answer. Until the next answer is given, the item isn't
    /// there yet.
    pub(crate) fn room(&mut self, alloc: Global) -> FieldBlock
        ensures is { self.new ≡ answer.Pending }
        ensures room { result ≡ [] }
    {
        self.told = Told::Plain(Plain::Pending);
        let mut block = mem::replace(&mut self.block, FieldBlock::new(alloc));
        block.clear();
        block
    }

    /// The memory of fields that are not returned serves again. Until the next answer is given, the item isn't there yet.
    pub(crate) fn keep(&mut self, fields: FieldBlock)
        ensures { self.new ≡ answer.Pending }
    {
        self.told = Told::Plain(Plain::Pending);
        self.block = fields;
    }

    /// The fault that it tells.
    pub fn fault(&self) -> Option<Fault>
        ensures { result ≡ fault_told (pull_of self.now) }
    {
        fault_of(&self.told)
    }
}

fn listed(kind: MessageKind, fields: FieldBlock) -> ListItem
    ensures { result ≡ listed_as kind fields }
{
    match kind {
        MessageKind::Interim => ListItem::Interim(fields),
        MessageKind::Head => ListItem::Head(fields),
        MessageKind::Trailer => ListItem::Trailer(fields),
    }
}

fn of_plain(answer: Plain) -> ListPull
    ensures { result ≡ plain_answer answer }
{
    match answer {
        Plain::Body(bytes) => ListPull::Item(ListItem::Body(bytes)),
        Plain::Raw(bytes) => ListPull::Item(ListItem::Raw(bytes)),
        Plain::Session(session) => ListPull::Item(ListItem::Session(session)),
        Plain::TooLarge(size) => ListPull::Item(ListItem::TooLarge(size)),
        Plain::End => ListPull::Item(ListItem::End),
        Plain::Pending => ListPull::Pending,
        Plain::Waiting(count) => ListPull::Waiting(count),
        Plain::Fault(fault) => ListPull::Fault(fault),
        Plain::NoMessages => ListPull::NoMessages,
    }
}

// The fault that the answer has.
fn fault_of(told: &Told) -> Option<Fault>
    ensures { (fields : List Field) → result ≡ fault_told (pull_of (told_with told.now fields)) }
{
    match told {
        Told::Message(_, _) => None,
        Told::Plain(plain) => fault_in(plain),
    }
}

fn fault_in(plain: &Plain) -> Option<Fault>
    ensures { result ≡ fault_told (plain_pull plain.now) }
{
    match plain {
        Plain::Fault(fault) => Some(*fault),
        Plain::Body(_)
        | Plain::Raw(_)
        | Plain::Session(_)
        | Plain::TooLarge(_)
        | Plain::End
        | Plain::Pending
        | Plain::Waiting(_)
        | Plain::NoMessages => None,
    }
}

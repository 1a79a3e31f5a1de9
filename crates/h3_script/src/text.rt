//! The lines that answers are printed as.
ghost use Rattle.std.specs.Prelude.{◌≡◌, ◌++◌, string_bytes, IfOk, OnOk};
ghost use Rattle.std.specs.Fmt.{decimal};
ghost use Rattle.h3_script.specs.Lines.{answer_line, pull_line, item_line, list_item_line, list_pull_line, section_line, field_word};
ghost use Rattle.h3_script.specs.Lines.{limits_words, lossy, refusal_text, shown_line, tables_words, with_behind};
ghost use Rattle.h3_header.specs.Head.{head_fields};

use bstr::BStr;
use h3_connection::event::{Fault, Item, Malformation, PeerLimits, Pull, Refusal, TableSizes};
use h3_connection::lists::{ListItem, ListPull};
use h3_field::{FieldBlock, HeaderField};
use h3_header::Header;
use h3_proto::error::Code;
use h3_world::event::Answer;
use std::alloc::{AllocError, Global};
use std::fmt;
use std::fmt::Write;

/// What stands after the name of a refusal.
#[derive(Clone, Copy)]
enum Behind {
    Nothing,
    Code(Code),
    Number(u64),
    Rule(Malformation),
}

/// A refusal as text: its name, and the code, the id, the size or the rule that it carries.
#[derive(Clone, Copy)]
pub struct RefusalText(pub Refusal);

impl fmt::Display for RefusalText {
    ghost use Rattle.std.specs.Prelude.{Some};
    ghost use Rattle.h3_script.specs.Lines.{refusal_text};

    ghost output = { λ r. Some (refusal_text r.0) };

    fn fmt<W: fmt::Write>(&self, f: &mut fmt::Formatter<W>) -> fmt::Result {
        let (name, behind) = refusal_parts(self.0);
        match behind {
            Behind::Nothing => write!(f, "{name}"),
            Behind::Code(code) => write!(f, "{name} {code}"),
            Behind::Number(number) => write!(f, "{name} {number}"),
            Behind::Rule(why) => {
                let rule = why.name();
                write!(f, "{name} {rule}")
            }
        }
    }
}

/// The name of a refusal, and what stands after it.
fn refusal_parts(refusal: Refusal) -> (&'static str, Behind)
    ensures { with_behind result.0.now result.1 ≡ refusal_text refusal }
{
    match refusal {
        Refusal::Closed(code) => ("Closed", Behind::Code(code)),
        Refusal::Connection(code) => ("Connection", Behind::Code(code)),
        Refusal::NotReceiving => ("NotReceiving", Behind::Nothing),
        Refusal::AfterEnd => ("AfterEnd", Behind::Nothing),
        Refusal::Kept => ("Kept", Behind::Nothing),
        Refusal::NotClient => ("NotClient", Behind::Nothing),
        Refusal::GoingAway(id) => ("GoingAway", Behind::Number(id.into_inner())),
        Refusal::IdsUsedUp => ("IdsUsedUp", Behind::Nothing),
        Refusal::NotOpen => ("NotOpen", Behind::Nothing),
        Refusal::OutOfOrder => ("OutOfOrder", Behind::Nothing),
        Refusal::WrongSide => ("WrongSide", Behind::Nothing),
        Refusal::PseudoInTrailer => ("PseudoInTrailer", Behind::Nothing),
        Refusal::Malformed(why) => ("Malformed", Behind::Rule(why)),
        Refusal::TooLarge(size) => ("TooLarge", Behind::Number(size)),
        Refusal::Critical => ("Critical", Behind::Nothing),
        Refusal::Ended => ("Ended", Behind::Nothing),
        Refusal::NotRequestId => ("NotRequestId", Behind::Nothing),
        Refusal::Raised(id) => ("Raised", Behind::Number(id)),
        Refusal::OutOfMemory => ("OutOfMemory", Behind::Nothing),
    }
}

/// A fault as text: its own `Display`.
#[derive(Clone, Copy)]
pub struct FaultText(pub Fault);

impl fmt::Display for FaultText {
    ghost use Rattle.std.specs.Prelude.{Some};
    ghost use Rattle.h3_connection.specs.FaultTexts.{fault_text};

    ghost output = { λ f. Some (fault_text f.0) };

    fn fmt<W: fmt::Write>(&self, f: &mut fmt::Formatter<W>) -> fmt::Result {
        fmt::Display::fmt(&self.0, f)
    }
}

/// The line of an answer, without its end.
pub fn answer_text(alloc: Global, answer: &Answer) -> Result<String, AllocError>
    ensures { IfOk result (λ text. string_bytes text ≡ answer_line answer.now) }
{
    match answer {
        Answer::Opened(id) => numbered(alloc, "stream ", id.into_inner()),
        Answer::Done => String::from_str(alloc, "ok"),
        Answer::Delivered(count) => numbered(alloc, "delivered ", *count as u64),
        Answer::Short(waits) => numbered(alloc, "short ", *waits as u64),
        Answer::NoStream => String::from_str(alloc, "no stream"),
        Answer::Early => String::from_str(alloc, "early"),
        Answer::Pulled(pull) => pull_text(alloc, pull),
        Answer::Listed(pull) => list_pull_text(alloc, pull),
        Answer::Shown(peer, tables, waiting) => shown_text(alloc, *peer, *tables, *waiting),
        Answer::Refused(refusal) => {
            let refusal = RefusalText(*refusal);
            format!(in alloc; "refused {refusal}")
        }
    }
}

/// The text, and the digits of the number after it.
fn numbered(alloc: Global, text: &str, number: u64) -> Result<String, AllocError>
    ensures { IfOk result (λ line. string_bytes line ≡ text.now ++ decimal number) }
{
    format!(in alloc; "{text}{number}")
}

/// The limits of the peer, the sizes of both tables, and how many streams wait.
fn shown_text(
    alloc: Global,
    peer: Option<PeerLimits>,
    tables: TableSizes,
    waiting: usize,
) -> Result<String, AllocError>
    ensures { IfOk result (λ text. string_bytes text ≡ shown_line peer tables waiting) }
{
    let limits = limits_text(alloc, peer)?;
    let tables = tables_text(alloc, tables, waiting)?;
    format!(in alloc; "show {limits} {tables}")
}

/// The limits of the peer, or a `-` for each of them until its settings came.
fn limits_text(alloc: Global, peer: Option<PeerLimits>) -> Result<String, AllocError>
    ensures { IfOk result (λ text. string_bytes text ≡ limits_words peer) }
{
    match peer {
        Some(limits) => {
            let PeerLimits {
                capacity,
                blocked,
                section,
            } = limits;
            format!(in alloc; "{capacity} {blocked} {section}")
        }
        None => String::from_str(alloc, "- - -"),
    }
}

/// The sizes of both tables, and how many streams wait.
fn tables_text(alloc: Global, tables: TableSizes, waiting: usize) -> Result<String, AllocError>
    ensures { IfOk result (λ text. string_bytes text ≡ tables_words tables waiting) }
{
    let TableSizes { sending, receiving } = tables;
    format!(in alloc; "{sending} {receiving} {waiting}")
}

fn pull_text(alloc: Global, pull: &Pull) -> Result<String, AllocError>
    ensures { IfOk result (λ text. string_bytes text ≡ pull_line pull.now) }
{
    match pull {
        Pull::Item(item) => item_text(alloc, item),
        Pull::Pending => String::from_str(alloc, "pending"),
        Pull::Waiting(count) => numbered(alloc, "waiting ", *count as u64),
        Pull::Fault(fault) => {
            let fault = FaultText(*fault);
            format!(in alloc; "fault {fault}")
        }
        Pull::NoMessages => String::from_str(alloc, "no messages"),
    }
}

fn item_text(alloc: Global, item: &Item) -> Result<String, AllocError>
    ensures { IfOk result (λ text. string_bytes text ≡ item_line item.now) }
{
    match item {
        Item::Interim(head) => section_text(alloc, "interim", head),
        Item::Head(head) => section_text(alloc, "head", head),
        Item::Body(bytes) => bytes_text(alloc, "body ", bytes.as_slice()),
        Item::Trailer(trailer) => section_text(alloc, "trailer", trailer),
        Item::TooLarge(size) => numbered(alloc, "too large ", *size),
        Item::Session(id) => numbered(alloc, "session ", id.into_inner()),
        Item::Raw(bytes) => bytes_text(alloc, "raw ", bytes.as_slice()),
        Item::End => String::from_str(alloc, "end"),
    }
}

fn list_pull_text(alloc: Global, pull: &ListPull) -> Result<String, AllocError>
    ensures { IfOk result (λ text. string_bytes text ≡ list_pull_line pull.now) }
{
    match pull {
        ListPull::Item(item) => list_item_text(alloc, item),
        ListPull::Pending => String::from_str(alloc, "pending"),
        ListPull::Waiting(count) => numbered(alloc, "waiting ", *count as u64),
        ListPull::Fault(fault) => {
            let fault = FaultText(*fault);
            format!(in alloc; "fault {fault}")
        }
        ListPull::NoMessages => String::from_str(alloc, "no messages"),
    }
}

fn list_item_text(alloc: Global, item: &ListItem) -> Result<String, AllocError>
    ensures { IfOk result (λ text. string_bytes text ≡ list_item_line item.now) }
{
    match item {
        ListItem::Interim(list) => list_text(alloc, "interim", list),
        ListItem::Head(list) => list_text(alloc, "head", list),
        ListItem::Body(bytes) => bytes_text(alloc, "body ", bytes.as_slice()),
        ListItem::Trailer(list) => list_text(alloc, "trailer", list),
        ListItem::TooLarge(size) => numbered(alloc, "too large ", *size),
        ListItem::Session(id) => numbered(alloc, "session ", id.into_inner()),
        ListItem::Raw(bytes) => bytes_text(alloc, "raw ", bytes.as_slice()),
        ListItem::End => String::from_str(alloc, "end"),
    }
}

/// The name, and the fields after it.
fn section_text(alloc: Global, name: &str, section: &Header) -> Result<String, AllocError>
    ensures { IfOk result (λ text. string_bytes text ≡ section_line name.now (head_fields section.now)) }
{
    let fields = section.fields(alloc)?;
    fields_text(alloc, name, fields.as_slice())
}

/// The same of a list.
fn list_text(alloc: Global, name: &str, list: &FieldBlock) -> Result<String, AllocError>
    ensures { IfOk result (λ text. string_bytes text ≡ section_line name.now list.now) }
{
    let fields = list.to_fields(alloc)?;
    fields_text(alloc, name, fields.as_slice())
}

/// The name, and these fields after it.
fn fields_text(alloc: Global, name: &str, fields: &[HeaderField]) -> Result<String, AllocError>
    ensures { IfOk result (λ text. string_bytes text ≡ section_line name.now fields.now) }
{
    let mut text = String::from_str(alloc, name)?;
    if fields.is_empty() {
        text.push(' ')?;
        return Ok(text);
    }
    for field in fields {
        push_field(&mut text, field)?;
    }
    Ok(text)
}

/// Adds a blank, the name and the value of a field, with U+FFFD for what is no character.
fn push_field(text: &mut String, field: &HeaderField) -> Result<(), AllocError>
    ensures { OnOk result (string_bytes text.new ≡ string_bytes text.old ++ field_word field.now) }
{
    let name = BStr::new(field.name());
    let value = BStr::new(field.value());
    write!(text, " {name}={value}")?;
    Ok(())
}

/// The name, and the bytes after it, with U+FFFD for what is no character.
fn bytes_text(alloc: Global, name: &str, bytes: &[u8]) -> Result<String, AllocError>
    ensures { IfOk result (λ text. string_bytes text ≡ name.now ++ lossy bytes.now) }
{
    let bytes = BStr::new(bytes);
    let mut text = String::from_str(alloc, name)?;
    write!(text, "{bytes}")?;
    Ok(text)
}

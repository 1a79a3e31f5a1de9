//! A field section in the midst of its writing: lines and instructions, field by field (RFC 9204, sections 4.3 and 4.5).
ghost use Rattle.std.specs.Prelude.{◌≡◌, ◌<◌, ◌≤◌, ◌^◌, ◌+◌, ◌-◌, ◌++◌, [], List, ℕ, flat_map, length, IfSome, OnOk, OnErr};
ghost use Rattle.std.specs.List.{AllByRecursion};
ghost use Rattle.std.specs.Result.{IsOkUnless};
ghost use Rattle.h3_field.specs.ReadBack.{IsFieldOfBytes};
ghost use Rattle.h3_field.specs.Field.{field_size, section_size};
ghost use Rattle.h3_field.specs.Secret.{guarded};
ghost use Rattle.h3_field.specs.StringLiteral.{coded};
ghost use Rattle.h3_field.specs.Line.{line_bytes};
ghost use Rattle.h3_field.specs.Line.FieldLine.{PostBaseField};
ghost use Rattle.h3_field.specs.Instruction.{encoder_bytes};
ghost use Rattle.h3_field.specs.Prefix.{prefix_bytes};
ghost use Rattle.h3_field.specs.StaticTable.{static_name};
ghost use Rattle.h3_field.specs.declared.encoder_error.EncoderError.TheVariants.{OutOfMemory};
ghost use Rattle.h3_table.specs.TableState.{evicted, with_entry};
ghost use Rattle.h3_qpack.specs.EncoderState.{MayInsertInto};
ghost use Rattle.h3_qpack.specs.EncoderHistory.{EncoderHistory};
ghost use Rattle.h3_qpack.specs.SectionEncoding.{Draft, add_field, draft_of, entry_name_line};
ghost use Rattle.h3_qpack.specs.Missed.{IsMissed, IsMissedFor};
ghost use Rattle.h3_qpack.specs.Drafting.{IsOver, IsPossible, line_for, section_after, encoder_state_with, instructions_after};
ghost use Rattle.h3_qpack.specs.Drafting.{insertion_for, IsDrafted, IsCutOff, IsPutAhead};

use crate::dynamic::DynamicTable;
use crate::section::{Choice, Section};
use h3_field::block::{
    HeaderPrefix, Indexed, IndexedWithPostBase, Literal, LiteralWithNameRef,
    LiteralWithPostBaseNameRef,
};
use h3_field::static_::StaticTable;
use h3_field::stream::{Duplicate, InsertWithNameRef, InsertWithoutNameRef};
use h3_field::{EncoderError, FieldRef, Fields, reserve_some};
use h3_table::entries::Match;
use std::alloc::AllocError;

/// Appends the instruction that inserts a field, after which so many entries are evicted. No entry up to the number that was searched
/// equals the field, so none is searched there. The index is that of the static entry with its name. The table's encoder chose how strings
/// are coded.
#[tactic(auto, using(crate::proofs::Missed::missed))]
fn put_insertion(
    table: &DynamicTable,
    searched: usize,
    field: &FieldRef<'_>,
    static_index: Option<usize>,
    after: usize,
    encoder_buf: &mut Vec<u8>,
) -> Result<(), EncoderError>
    requires index { static_index ≡ static_name field.now.name }
    requires below { IfSome static_index (λ index. index < 99) }
    requires after { evicted table.now.table ≤ after }
    requires missed { IsMissed table.now.table searched field.now }
    requires size { field_size field.now < 2 ^ 62 }
    ensures memory { IsOkUnless result OutOfMemory }
    ensures ok { OnOk result
        (encoder_buf.new.items ≡ encoder_buf.old.items ++ encoder_bytes
        (insertion_for table.now.choices.shortest_strings table.now.table after field.now)) }
    ensures err { OnErr result (encoder_buf.new.items ≡ encoder_buf.old.items) }
{
    let inserted = table.inserted();
    let shortest = table.choices().shortest_strings;
    if let Some(number) = table.newest(Match::Field, field, after.max(searched), inserted) {
        Duplicate(inserted - number).encode(encoder_buf)?;
        return Ok(());
    }
    if let Some(index) = static_index {
        InsertWithNameRef::write_static(index, field.value(), shortest, encoder_buf)?;
        return Ok(());
    }
    if let Some(number) = table.newest(Match::Name, field, after, inserted) {
        InsertWithNameRef::write_dynamic(inserted - number, field.value(), shortest, encoder_buf)?;
        return Ok(());
    }
    InsertWithoutNameRef::write(field.name(), field.value(), shortest, encoder_buf)?;
    Ok(())
}

/// Inserts a field that may be, and appends the instruction for it. No entry up to the number that was searched equals the field. A refusal
/// changes nothing.
#[inline(never)]
fn put_entry(
    table: &mut DynamicTable,
    searched: usize,
    field: &FieldRef<'_>,
    after: usize,
    encoder_buf: &mut Vec<u8>,
) -> Result<(), EncoderError>
    requires may { (oldest : ℕ) × MayInsertInto table.old field.now oldest }
    requires after { after ≡ evicted (with_entry table.old.table field.now) }
    requires from { evicted table.old.table ≤ after }
    requires missed { IsMissed table.old.table searched field.now }
    requires size { field_size field.now < 2 ^ 62 }
    ensures memory { IsOkUnless result OutOfMemory }
    ensures ok { OnOk result (table.new ≡ record table.old { table = with_entry table.old.table field.now }) }
    ensures instructions { OnOk result
        (encoder_buf.new.items ≡ encoder_buf.old.items ++ encoder_bytes
        (insertion_for table.old.choices.shortest_strings table.old.table after field.now)) }
    ensures err { OnErr result ((table.new ≡ table.old) × (encoder_buf.new.items ≡ encoder_buf.old.items)) }
{
    let static_index = StaticTable::find_name(field.name());
    reserve_some(encoder_buf)?;
    let start = encoder_buf.len();
    put_insertion(table, searched, field, static_index, after, encoder_buf)?;
    if table.insert(field, after).is_err() {
        encoder_buf.truncate(start);
        return Err(EncoderError::OutOfMemory);
    }
    Ok(())
}

// RFC 9204 3.2.6: post-base index
/// Inserts a field that may be, and appends the instruction for it and the line that is the new entry. A refusal inserts
/// nothing, and may leave the line.
fn put_inserted(
    table: &mut DynamicTable,
    base: usize,
    field: &FieldRef<'_>,
    after: usize,
    searched: usize,
    lines: &mut Vec<u8>,
    encoder_buf: &mut Vec<u8>,
) -> Result<(), EncoderError>
    requires may { (oldest : ℕ) × MayInsertInto table.old field.now oldest }
    requires after { after ≡ evicted (with_entry table.old.table field.now) }
    requires from { evicted table.old.table ≤ after }
    requires missed { IsMissed table.old.table searched field.now }
    requires size { field_size field.now < 2 ^ 62 }
    requires base { base ≤ table.old.table.inserted }
    ensures memory { IsOkUnless result OutOfMemory }
    ensures ok { OnOk result (table.new ≡ record table.old { table = with_entry table.old.table field.now }) }
    ensures line { OnOk result (lines.new.items ≡ lines.old.items ++ line_bytes (PostBaseField (table.old.table.inserted - base))) }
    ensures instructions { OnOk result
        (encoder_buf.new.items ≡ encoder_buf.old.items ++ encoder_bytes
        (insertion_for table.old.choices.shortest_strings table.old.table after field.now)) }
    ensures err { OnErr result ((table.new ≡ table.old) × (encoder_buf.new.items ≡ encoder_buf.old.items)) }
{
    IndexedWithPostBase(table.inserted() - base).encode(lines)?;
    put_entry(table, searched, field, after, encoder_buf)
}

/// Appends the line of a literal value with the name of a dynamic entry, and that bit N. If `shortest`, the value is Huffman coded only
/// if that is shorter.
#[inline(never)]
fn put_entry_name(
    base: usize,
    number: usize,
    value: &[u8],
    never_indexed: bool,
    shortest: bool,
    lines: &mut Vec<u8>,
) -> Result<(), EncoderError>
    requires base { base < 2 ^ 62 }
    requires number { number < 2 ^ 62 }
    requires value { length value.now < 2 ^ 62 }
    ensures memory { IsOkUnless result OutOfMemory }
    ensures ok { OnOk result
        (lines.new.items ≡ lines.old.items ++ line_bytes (entry_name_line base number (coded shortest value.now) never_indexed)) }
{
    if number <= base {
        LiteralWithNameRef::write_dynamic(base - number, value, never_indexed, shortest, lines)?;
        return Ok(());
    }
    LiteralWithPostBaseNameRef::write(number - base - 1, value, never_indexed, shortest, lines)?;
    Ok(())
}

/// Writes a field as it was chosen. A refusal inserts nothing, and may leave a line.
fn put_chosen(
    table: &mut DynamicTable,
    section: &mut Section,
    field: &FieldRef<'_>,
    choice: Choice,
    lines: &mut Vec<u8>,
    encoder_buf: &mut Vec<u8>,
) -> Result<(), EncoderError>
    requires over { IsOver table.old.table section.old }
    requires possible { IsPossible table.old section.old field.now choice }
    requires missed { IsMissedFor table.old.table field.now choice }
    requires size { field_size field.now < 2 ^ 62 }
    ensures memory { IsOkUnless result OutOfMemory }
    ensures table { OnOk result (table.new ≡ encoder_state_with table.old field.now choice) }
    ensures section { OnOk result (section.new ≡ section_after table.old section.old choice) }
    ensures line { OnOk result (lines.new.items ≡ lines.old.items ++ line_bytes (line_for table.old section.old field.now choice)) }
    ensures instructions { OnOk result
        (encoder_buf.new.items ≡ encoder_buf.old.items ++ flat_map encoder_bytes (instructions_after table.old field.now choice)) }
    ensures err { OnErr result ((table.new ≡ table.old) × (encoder_buf.new.items ≡ encoder_buf.old.items)) }
{
    let inserted = table.inserted();
    let never_indexed = field.is_never_indexed();
    let shortest = table.choices().shortest_strings;
    match choice {
        Choice::Static(index) => Indexed::Static(index).encode(lines)?,
        Choice::Entry(number) => {
            Indexed::Dynamic(section.base - number).encode(lines)?;
            section.name(number);
        }
        Choice::Insertion(after, searched) => {
            put_inserted(
                table,
                section.base,
                field,
                after,
                searched,
                lines,
                encoder_buf,
            )?;
            section.name(inserted + 1);
        }
        Choice::StaticName(index) => {
            LiteralWithNameRef::write_static(index, field.value(), never_indexed, shortest, lines)?
        }
        Choice::EntryName(number) => {
            put_entry_name(
                section.base,
                number,
                field.value(),
                never_indexed,
                shortest,
                lines,
            )?;
            section.name(number);
        }
        Choice::Literal => {
            Literal::write(field.name(), field.value(), never_indexed, shortest, lines)?
        }
    }
    Ok(())
}

/// Inserts a field for later sections, if an economical encoder may, and appends the instruction for it: no line names the entry. A refusal
/// changes nothing.
fn put_ahead(
    table: &mut DynamicTable,
    section: &Section,
    field: &FieldRef<'_>,
    encoder_buf: &mut Vec<u8>,
) -> Result<(), EncoderError>
    requires over { IsOver table.old.table section.now }
    requires size { field_size field.now < 2 ^ 62 }
    ensures memory { IsOkUnless result OutOfMemory }
    ensures over { OnOk result (IsOver table.new.table section.now) }
    ensures grows { length encoder_buf.old.items ≤ length encoder_buf.new.items }
    ensures ok { OnOk result (IsPutAhead table.old section.now field.now table.new encoder_buf.old.items encoder_buf.new.items) }
    ensures err { OnErr result ((table.new ≡ table.old) × (encoder_buf.new.items ≡ encoder_buf.old.items)) }
{
    let Some((after, searched)) = table.room_ahead(field, section) else {
        return Ok(());
    };
    put_entry(table, searched, field, after, encoder_buf)
}

/// Writes a field: its line, and the instruction if it is inserted. A refusal inserts nothing, and may leave a line.
fn put_field(
    table: &mut DynamicTable,
    section: &mut Section,
    field: &FieldRef<'_>,
    lines: &mut Vec<u8>,
    encoder_buf: &mut Vec<u8>,
) -> Result<(), EncoderError>
    requires over { IsOver table.old.table section.old }
    requires size { field_size field.now < 2 ^ 62 }
    ensures memory { IsOkUnless result OutOfMemory }
    ensures over { OnOk result (IsOver table.new.table section.new) }
    ensures grows { length encoder_buf.old.items ≤ length encoder_buf.new.items }
    ensures ok { OnOk result ((s : EncoderHistory) (d : Draft) (start : List ℕ)
        → IsDrafted s d table.old section.old lines.old.items start encoder_buf.old.items →
        IsDrafted s (add_field s d field.now) table.new section.new lines.new.items start encoder_buf.new.items) }
    ensures err { OnErr result ((table.new ≡ table.old) × (encoder_buf.new.items ≡ encoder_buf.old.items)) }
{
    // (for the proof: its numbers are small)
    table.is_small();
    let choice = section.choose(table, field);
    put_chosen(table, section, field, choice, lines, encoder_buf)?;
    if !choice.is_literal() {
        return Ok(());
    }
    put_ahead(table, section, field, encoder_buf)?;
    table.note(field);
    Ok(())
}

// RFC 9204 7.1.3: guarded secrets
/// The field as an encoder takes it: with the flag if it is a secret and the encoder guards these.
#[inline(always)]
pub(crate) fn guard(guards: bool, field: FieldRef<'_>) -> FieldRef<'_>
    ensures { result ≡ guarded guards field.entry }
{
    if guards && field.is_secret() {
        return field.with_never_indexed(true);
    }
    field
}

/// Writes the fields of a section, one after the other. A refusal leaves whole instructions, those of the insertions made.
pub(crate) fn put_fields(
    table: &mut DynamicTable,
    section: &mut Section,
    fields: &Fields<'_>,
    lines: &mut Vec<u8>,
    encoder_buf: &mut Vec<u8>,
) -> Result<(), EncoderError>
    requires over { IsOver table.old.table section.old }
    requires size { section_size fields.now < 2 ^ 62 }
    ensures memory { IsOkUnless result OutOfMemory }
    ensures over { OnOk result (IsOver table.new.table section.new) }
    ensures grows { length encoder_buf.old.items ≤ length encoder_buf.new.items }
    ensures ok { OnOk result ((s : EncoderHistory) (start : List ℕ)
        → IsDrafted s (draft_of s []) table.old section.old lines.old.items start encoder_buf.old.items →
        IsDrafted s (draft_of s fields.now) table.new section.new lines.new.items start encoder_buf.new.items) }
    ensures bytes { OnOk result (AllByRecursion IsFieldOfBytes fields.now) }
    ensures err { OnErr result ((s : EncoderHistory) (start : List ℕ)
        → IsDrafted s (draft_of s []) table.old section.old lines.old.items start encoder_buf.old.items →
        IsCutOff s s fields.now table.new start encoder_buf.new.items) }
{
    let guards = table.choices().guards_secrets;
    // (the label names the loop in its proof)
    'fields: for place in 0..fields.len() {
        let field = fields.get(place);
        // (for the proof: name and value are bytes)
        field.are_bytes();
        let taken = guard(guards, field);
        put_field(table, section, &taken, lines, encoder_buf)?;
    }
    Ok(())
}

// RFC 9204 4.5.1.2: base of a section
/// Appends a section that is written: its prefix, and then its lines. A refusal appends nothing.
pub(crate) fn put_section(
    table: &DynamicTable,
    section: &Section,
    lines: &[u8],
    block: &mut Vec<u8>,
) -> Result<(), AllocError>
    requires { IsOver table.now.table section.now }
    ensures ok { OnOk result
        (block.new.items ≡ block.old.items ++ (prefix_bytes table.now.announced section.now.newest section.now.base ++ lines.now)) }
    ensures err { OnErr result (block.new.items ≡ block.old.items) }
{
    // (for the proof: its numbers are small)
    table.is_small();
    let inserted = table.inserted();
    let prefix = HeaderPrefix::new(section.newest, section.base, inserted, table.announced());
    let start = block.len();
    prefix.encode(block)?;
    if block.extend_from_slice(lines).is_err() {
        block.truncate(start);
        return Err(AllocError);
    }
    Ok(())
}

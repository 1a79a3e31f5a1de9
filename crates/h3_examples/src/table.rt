//! A table that one section may wait on, and a section that inserts into it.
ghost use Rattle.std.specs.Prelude.{◌≡◌};

use crate::log::{number, words};
use crate::session::field;
use h3_qpack::{DynamicLookupResult, DynamicTable, DynamicTableEncoder, HeaderField};
use std::alloc::{AllocError, Global};

/// A table of capacity 220, which one section may wait on.
fn set_limits(table: &mut DynamicTable) -> Result<(), AllocError> {
    table.set_max_blocked(1).map_err(|_| AllocError)?;
    table.set_max_size(220).map_err(|_| AllocError)
}

/// Inserts a field, and tells how.
fn insert(
    alloc: Global,
    text: &mut String,
    view: &mut DynamicTableEncoder<'_>,
    name: &'static [u8],
    value: &'static [u8],
) -> Result<(), AllocError> {
    let answer = view.insert(&field(name, value)).map_err(|_| AllocError)?;
    let line = format!(in alloc; "{answer:?}")?;
    words(text, line.as_str())
}

/// The insertions of RFC 9204, appendices B.2 to B.4, and one that would evict an entry of its own section.
pub fn inserts_in_the_shortest_way(alloc: Global, text: &mut String) -> Result<(), AllocError> {
    words(text, "# insertions in the shortest way")?;
    let mut table = DynamicTable::new(alloc);
    insert_all(alloc, text, &mut table)
}

fn insert_all(
    alloc: Global,
    text: &mut String,
    table: &mut DynamicTable,
) -> Result<(), AllocError> {
    set_limits(table)?;
    let mut view = table.encoder(4);
    let done = insert_each(alloc, text, &mut view);
    if done.is_err() {
        view.release();
        return done;
    }
    ended(alloc, text, view.commit())?;
    number(alloc, text, "sections that may wait", table.blocks_out())
}

fn insert_each(
    alloc: Global,
    text: &mut String,
    view: &mut DynamicTableEncoder<'_>,
) -> Result<(), AllocError> {
    insert(alloc, text, view, b":authority", b"www.example.com")?;
    insert(alloc, text, view, b":path", b"/sample/path")?;
    insert(alloc, text, view, b"custom-key", b"custom-value")?;
    insert(alloc, text, view, b":authority", b"www.example.com")?;
    insert(alloc, text, view, b"custom-key", b"custom-value2")
}

/// Tells the insert count that a section requires.
fn ended<E: Drop>(
    alloc: Global,
    text: &mut String,
    committed: Result<usize, E>,
) -> Result<(), AllocError> {
    let count = committed.map_err(|_| AllocError)?;
    number(alloc, text, "required insert count", count)
}

/// Begins a section and releases it, which leaves the table as it was.
fn begin_and_release(table: &mut DynamicTable)
    ensures { table.new ≡ table.old }
{
    table.encoder(0).release();
}

/// An entry that is inserted is named by the sections after the one that inserted it.
pub fn finds(alloc: Global, text: &mut String) -> Result<(), AllocError> {
    words(text, "# what is found in a table")?;
    let mut table = DynamicTable::new(alloc);
    find_all(alloc, text, &mut table)
}

fn find_all(alloc: Global, text: &mut String, table: &mut DynamicTable) -> Result<(), AllocError> {
    set_limits(table)?;
    begin_and_release(table);
    first_section(alloc, text, table)?;
    number(alloc, text, "sections that may wait", table.blocks_out())?;
    second_section(alloc, text, table)
}

fn first_section(
    alloc: Global,
    text: &mut String,
    table: &mut DynamicTable,
) -> Result<(), AllocError> {
    let mut view = table.encoder(4);
    let done = insert_and_find(alloc, text, &mut view);
    view.release();
    done
}

fn insert_and_find(
    alloc: Global,
    text: &mut String,
    view: &mut DynamicTableEncoder<'_>,
) -> Result<(), AllocError> {
    insert(alloc, text, view, b"custom-key", b"custom-value")?;
    find(alloc, text, view, b"custom-key", b"custom-value")
}

fn second_section(
    alloc: Global,
    text: &mut String,
    table: &mut DynamicTable,
) -> Result<(), AllocError> {
    let mut view = table.encoder(8);
    let done = find_and_insert(alloc, text, &mut view);
    if done.is_err() {
        view.release();
        return done;
    }
    ended(alloc, text, view.commit())
}

fn find_and_insert(
    alloc: Global,
    text: &mut String,
    view: &mut DynamicTableEncoder<'_>,
) -> Result<(), AllocError> {
    find(alloc, text, view, b"custom-key", b"custom-value")?;
    insert(alloc, text, view, b"custom-key", b"custom-value2")?;
    let answer = view.lookup_name(&field(b"custom-key", b""));
    found(alloc, text, answer)
}

fn find(
    alloc: Global,
    text: &mut String,
    view: &mut DynamicTableEncoder<'_>,
    name: &'static [u8],
    value: &'static [u8],
) -> Result<(), AllocError> {
    let answer = view.lookup(&field(name, value));
    found(alloc, text, answer)
}

fn found(alloc: Global, text: &mut String, found: DynamicLookupResult) -> Result<(), AllocError> {
    let line = format!(in alloc; "{found:?}")?;
    words(text, line.as_str())
}

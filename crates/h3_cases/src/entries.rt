//! Entries of the static table (RFC 9204, appendix A), and the numbers of dynamic ones (section 3.2).
use crate::case::Told;
use h3_field::static_::StaticTable;
use h3_field::vas::VirtualAddressSpace;
use h3_field::{HeaderField, SliceCursor};

pub fn answer(told: &mut Told, command: &str, words: &[&str]) {
    match words {
        [] => place(told, command),
        [word] => of_word(told, command, *word),
        [added, gone, more @ ..] => {
            let (added, gone) = (told.small(*added), told.small(*gone));
            of_table(told, command, &after(added, gone), more);
        }
    }
}

/// A static entry, the place at which a name is found, or the name of an entry with the value `a`.
fn of_word(told: &mut Told, command: &str, word: &str) {
    match command {
        "static" => {
            let index = told.small(word);
            entry(told, index);
        }
        "name" => {
            let name = told.text(word);
            told.debug(StaticTable::find_name(&name));
        }
        "named" => {
            let index = told.small(word);
            with_value(told, index);
        }
        _ => told.unreadable(),
    }
}

/// A static entry, and where it is found.
fn entry(told: &mut Told, index: usize) {
    match StaticTable::get(index) {
        Ok(entry) => {
            told.debug(StaticTable::find(&entry));
            word_of(told, entry);
        }
        Err(e) => told.debug(e),
    }
}

fn with_value(told: &mut Told, index: usize) {
    match StaticTable::get_name(index) {
        Ok(name) => {
            let value = told.text("a");
            word_of(told, HeaderField::with_static_name(name, value));
        }
        Err(_) => told.unreadable(),
    }
}

fn word_of(told: &mut Told, field: HeaderField) {
    told.field(&field);
}

/// The numbers after so many insertions and evictions.
fn after(added: usize, gone: usize) -> VirtualAddressSpace {
    let mut table = VirtualAddressSpace::new();
    for _ in 0..added {
        if table.total_inserted() < 1000 {
            table.add();
        }
    }
    for _ in 0..gone {
        if table.largest_ref() > 0 {
            table.drop();
        }
    }
    table
}

fn of_table(told: &mut Told, command: &str, table: &VirtualAddressSpace, words: &[&str]) {
    match words {
        [] => {
            told.show(table.largest_ref());
            told.labeled(" of", table.total_inserted());
        }
        [word] => {
            let index = told.number(*word) as usize;
            of_index(told, command, table, index);
        }
        [base, index] => {
            let (base, index) = (told.number(*base) as usize, told.number(*index) as usize);
            of_base(told, command, table, (base, index));
        }
        _ => told.unreadable(),
    }
}

fn of_index(told: &mut Told, command: &str, table: &VirtualAddressSpace, index: usize) {
    match command {
        "relative" => told.debug(table.relative(index)),
        "index" => told.debug(table.index(index)),
        "evicted" => told.show(table.evicted(index)),
        _ => told.unreadable(),
    }
}

fn of_base(told: &mut Told, command: &str, table: &VirtualAddressSpace, place: (usize, usize)) {
    let (base, index) = place;
    match command {
        "post_base" => told.debug(table.post_base(base, index)),
        "relative_base" => told.debug(table.relative_base(base, index)),
        _ => told.unreadable(),
    }
}

/// A cursor past two of three bytes.
fn place(told: &mut Told, command: &str) {
    if command != "cursor" {
        return told.unreadable();
    }
    let mut buf = SliceCursor::new(&[1, 2, 3]);
    buf.advance(2);
    told.debug(buf.chunk());
}

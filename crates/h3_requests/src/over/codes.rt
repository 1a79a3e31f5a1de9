//! A code of 64 bits for each request stream that has one, by its id. No call moves more than a page, however many there are.
ghost use Rattle.std.specs.Prelude.{◌≡◌, ◌<◌, ◌/◌, ◌%◌, ℕ, [], length, slice_index_or, OnOk, OnErr};
ghost use Rattle.h3_requests.specs.Marks.{code_at, page_codes, HaveSameMarks, IsOneMark};

use std::alloc::{AllocError, Global};
use std::collections::BTreeMap;

/// The ids of request streams are four apart (RFC 9000, section 2.1).
const STEP: u64 = 4;

/// How many streams share a page.
const PAGE: u64 = 16;

/// Codes by the ids of their streams. One that is not there is 0.
#[derive(Drop)]
pub(crate) struct Codes {
    // of each page the codes up to that of its last stream that has one
    pages: BTreeMap<u64, Vec<u64>>,
}

// The number of a stream's page.
fn page_of(id: u64) -> u64
    ensures { result ≡ id / 64 }
{
    id / (STEP * PAGE)
}

// The place of a stream in its page.
fn place_of(id: u64) -> usize
    ensures value { result ≡ id / 4 % 16 }
    ensures within { result < 16 }
{
    (id / STEP % PAGE) as usize
}

// Makes a page so long that it has this place.
fn lengthen(page: &mut Vec<u64>, place: usize) -> Result<(), AllocError>
    requires { place < 16 }
    ensures same { (k : ℕ) → slice_index_or page.new.items k 0 ≡ slice_index_or page.old.items k 0 }
    ensures long { OnOk result (place < length page.new.items) }
{
    if place < page.len() {
        return Ok(());
    }
    page.resize(place + 1, 0)
}

impl Codes {
    /// No code. It takes no memory.
    pub(crate) fn new(alloc: Global) -> Codes
        ensures { (id : ℕ) → code_at result id ≡ 0 }
    {
        Codes {
            pages: BTreeMap::new(alloc),
        }
    }

    /// The code of a stream, or 0.
    pub(crate) fn get(&self, id: u64) -> u64
        ensures { result ≡ code_at self.now id }
    {
        if id % STEP != 0 {
            return 0;
        }
        let Some(page) = self.pages.get(&page_of(id)) else {
            return 0;
        };
        match page.get(place_of(id)) {
            Some(code) => *code,
            None => 0,
        }
    }

    /// Sets the code of a stream. An `Err` changes nothing: it is no id of a request stream, or an allocation failed.
    pub(crate) fn set(&mut self, alloc: Global, id: u64, code: u64) -> Result<(), AllocError>
        ensures set { OnOk result (IsOneMark id code (code_at self.old) (code_at self.new)) }
        ensures same { OnErr result (HaveSameMarks (code_at self.old) (code_at self.new)) }
    {
        if id % STEP != 0 {
            return Err(AllocError);
        }
        let place = place_of(id);
        let Some(page) = self.pages.get_mut(&page_of(id)) else {
            return self.add_page(alloc, id, code);
        };
        lengthen(page, place)?;
        page[place] = code;
        Ok(())
    }

    // The code of a stream in a new page.
    fn add_page(&mut self, alloc: Global, id: u64, code: u64) -> Result<(), AllocError>
        requires stream { id % 4 ≡ 0 }
        requires absent { page_codes self.old (id / 64) ≡ [] }
        ensures set { OnOk result (IsOneMark id code (code_at self.old) (code_at self.new)) }
        ensures same { OnErr result (HaveSameMarks (code_at self.old) (code_at self.new)) }
    {
        let place = place_of(id);
        let mut page = Vec::new(alloc);
        lengthen(&mut page, place)?;
        page[place] = code;
        let Ok(_) = self.pages.insert(page_of(id), page) else {
            return Err(AllocError);
        };
        Ok(())
    }
}

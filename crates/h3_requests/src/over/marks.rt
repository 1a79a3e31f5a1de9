//! A mark of one byte for each request stream, by its id. No call moves more than a page, however many there are.
ghost use Rattle.std.specs.Prelude.{◌≡◌, ◌<◌, ◌≤◌, ◌/◌, ◌%◌, ◌^◌, ◌==◌, ℕ, [], length, true, false, nat_lt, IfSome, slice_index_or};
ghost use Rattle.std.specs.Prelude.{slice_set, OnOk};
ghost use Rattle.h3_requests.specs.Greatest.{IsGreatest};
ghost use Rattle.h3_requests.specs.Marks.{is_last, mark_at, page_marks, AreBelow, HaveSameMarks, IsOneMark};

use std::alloc::{AllocError, Global};
use std::collections::BTreeMap;
use std::mem;

/// The ids of request streams are four apart (RFC 9000, section 2.1).
const STEP: u64 = 4;

/// How many streams share a page.
const PAGE: u64 = 128;

/// Marks by the ids of their streams. One that is 0 is not there.
#[derive(Drop)]
pub(crate) struct Marks {
    // the page that came last, if one has come, and its number: so streams that follow one another are found with no search
    number: u64,
    last: Vec<u8>,
    // the other pages, each with the marks of all its streams
    pages: BTreeMap<u64, Vec<u8>>,
    // the greatest id that was marked
    top: u64,
}

// The number of a stream's page.
fn page_of(id: u64) -> u64
    ensures { result ≡ id / 512 }
{
    id / (STEP * PAGE)
}

// The place of a stream in its page.
fn place_of(id: u64) -> usize
    ensures value { result ≡ id / 4 % 128 }
    ensures within { result < 128 }
{
    (id / STEP % PAGE) as usize
}

// Whether it is the id of a request stream.
fn has_place(id: u64) -> bool
    ensures { result ≡ (id % 4 == 0) }
{
    id % STEP == 0
}

// Makes a page so long that it has this place.
fn lengthen(page: &mut Vec<u8>, place: usize) -> Result<(), AllocError>
    requires { place < 128 }
    ensures same { (k : ℕ) → slice_index_or page.new.items k 0 ≡ slice_index_or page.old.items k 0 }
    ensures longer { length page.old.items ≤ length page.new.items }
{
    if place < page.len() {
        return Ok(());
    }
    fill(page, PAGE as usize)
}

// Makes a page so long, if it is shorter.
#[inline(never)]
fn fill(page: &mut Vec<u8>, len: usize) -> Result<(), AllocError>
    requires { length page.old.items < len }
    ensures same { (k : ℕ) → slice_index_or page.new.items k 0 ≡ slice_index_or page.old.items k 0 }
    ensures longer { length page.old.items ≤ length page.new.items }
{
    page.resize(len, 0)
}

// The mark at a place of a page, or 0.
fn mark_in(page: &[u8], place: usize) -> u8
    ensures { result ≡ slice_index_or page.now place 0 }
{
    match page.get(place) {
        Some(mark) => *mark,
        None => 0,
    }
}

// Sets the mark at a place of a page, if it has that place, and returns whether it has.
fn set_in(page: &mut [u8], place: usize, mark: u8) -> bool
    ensures set { result ≡ true → (place < length page.old) × (page.new ≡ slice_set page.old place mark) }
    ensures same { result ≡ false → page.new ≡ page.old }
    ensures none { result ≡ false → length page.old ≤ place }
{
    if place >= page.len() {
        return false;
    }
    page[place] = mark;
    true
}

impl Marks {
    /// No mark. It takes no memory.
    pub(crate) fn new(alloc: Global) -> Marks
        ensures none { (id : ℕ) → mark_at result id ≡ 0 }
    {
        Marks {
            number: 0,
            last: Vec::new(alloc),
            pages: BTreeMap::new(alloc),
            top: 0,
        }
    }

    // Whether it is the number of the page that came last.
    fn is_last(&self, number: u64) -> bool
        ensures { result ≡ is_last self.now number }
    {
        number == self.number && self.last.len() > 0
    }

    /// The mark of a stream, or 0.
    pub(crate) fn get(&self, id: u64) -> u8
        ensures { result ≡ mark_at self.now id }
    {
        if !has_place(id) {
            return 0;
        }
        let number = page_of(id);
        if self.is_last(number) {
            return mark_in(&self.last, place_of(id));
        }
        match self.pages.get(&number) {
            Some(page) => mark_in(page, place_of(id)),
            None => 0,
        }
    }

    /// The same, with one test if no stream has a mark, and with two if it is no request stream.
    #[inline(always)]
    pub(crate) fn get_if_any(&self, id: u64) -> u8
        requires { AreBelow self.now }
        ensures { result ≡ mark_at self.now id }
    {
        if id > self.top || !has_place(id) {
            return 0;
        }
        self.get_with_call(id)
    }

    // The mark of a stream, or 0: a call of its own.
    #[inline(never)]
    fn get_with_call(&self, id: u64) -> u8
        ensures { result ≡ mark_at self.now id }
    {
        self.get(id)
    }

    /// Takes memory for the mark of a stream, so that setting it takes none.
    pub(crate) fn reserve(&mut self, alloc: Global, id: u64) -> Result<(), AllocError>
        ensures same { HaveSameMarks (mark_at self.old) (mark_at self.new) }
        ensures top { self.new.top ≡ self.old.top }
    {
        let number = page_of(id);
        let place = place_of(id);
        if self.is_last(number) {
            return lengthen(&mut self.last, place);
        }
        self.reserve_far(alloc, number, place)
    }

    // The same on another page than the last one.
    #[inline(never)]
    fn reserve_far(&mut self, alloc: Global, number: u64, place: usize) -> Result<(), AllocError>
        requires within { place < 128 }
        requires other { is_last self.old number ≡ false }
        ensures same { HaveSameMarks (mark_at self.old) (mark_at self.new) }
        ensures top { self.new.top ≡ self.old.top }
    {
        let Some(page) = self.pages.get_mut(&number) else {
            return self.add_page(alloc, number, place);
        };
        lengthen(page, place)
    }

    // A new page, as long as it has to be. It is the last one then.
    #[inline(never)]
    fn add_page(&mut self, alloc: Global, number: u64, place: usize) -> Result<(), AllocError>
        requires within { place < 128 }
        requires absent { page_marks self.old number ≡ [] }
        ensures same { HaveSameMarks (mark_at self.old) (mark_at self.new) }
        ensures top { self.new.top ≡ self.old.top }
    {
        let mut page = Vec::new(alloc);
        lengthen(&mut page, place)?;
        self.put_by(alloc)?;
        self.number = number;
        self.last = page;
        Ok(())
    }

    // The page that came last goes to the others. An `Err` changes nothing: an allocation failed.
    fn put_by(&mut self, alloc: Global) -> Result<(), AllocError>
        ensures same { (number : ℕ) → page_marks self.new number ≡ page_marks self.old number }
        ensures none { OnOk result (self.new.last.items ≡ []) }
        ensures top { self.new.top ≡ self.old.top }
    {
        if self.last.is_empty() {
            return Ok(());
        }
        let last = mem::replace(&mut self.last, Vec::new(alloc));
        match self.pages.insert(self.number, last) {
            Ok(_) => Ok(()),
            Err(failed) => {
                self.last = failed.value.1;
                Err(AllocError)
            }
        }
    }

    /// Sets the mark of a stream for which memory was taken. Elsewhere nothing changes, and it says so.
    pub(crate) fn set(&mut self, id: u64, mark: u8) -> bool
        ensures set { result ≡ true → IsOneMark id mark (mark_at self.old) (mark_at self.new) }
        ensures same { result ≡ false → HaveSameMarks (mark_at self.old) (mark_at self.new) }
        ensures none { result ≡ false → mark_at self.old id ≡ 0 }
        ensures below { AreBelow self.old → AreBelow self.new }
    {
        if !self.write(id, mark) {
            return false;
        }
        if mark > 0 && id > self.top {
            self.top = id;
        }
        true
    }

    // The same of the mark alone.
    fn write(&mut self, id: u64, mark: u8) -> bool
        ensures set { result ≡ true → IsOneMark id mark (mark_at self.old) (mark_at self.new) }
        ensures same { result ≡ false → HaveSameMarks (mark_at self.old) (mark_at self.new) }
        ensures none { result ≡ false → mark_at self.old id ≡ 0 }
        ensures top { self.new.top ≡ self.old.top }
    {
        if !has_place(id) {
            return false;
        }
        let number = page_of(id);
        let place = place_of(id);
        if self.is_last(number) {
            return set_in(&mut self.last, place, mark);
        }
        self.set_far(id, mark)
    }

    // The same on another page than the last one.
    #[inline(never)]
    fn set_far(&mut self, id: u64, mark: u8) -> bool
        requires stream { id % 4 ≡ 0 }
        requires other { is_last self.old (id / 512) ≡ false }
        ensures set { result ≡ true → IsOneMark id mark (mark_at self.old) (mark_at self.new) }
        ensures same { result ≡ false → HaveSameMarks (mark_at self.old) (mark_at self.new) }
        ensures none { result ≡ false → mark_at self.old id ≡ 0 }
        ensures top { self.new.top ≡ self.old.top }
    {
        let Some(page) = self.pages.get_mut(&page_of(id)) else {
            return false;
        };
        set_in(page, place_of(id), mark)
    }

    /// The greatest id of a stream that has a mark. It goes down from the greatest that ever had one, which mostly has it still.
    pub(crate) fn greatest(&self) -> Option<u64>
        requires { AreBelow self.now }
        ensures fits { IfSome result (λ id. id < 2 ^ 64) }
        ensures value { IsGreatest (λ id. nat_lt 0 (mark_at self.now id)) result }
    {
        let mut id = self.top;
        while id > 0 {
            if self.get(id) > 0 {
                return Some(id);
            }
            id -= 1;
        }
        if self.get(0) > 0 { Some(0) } else { None }
    }
}

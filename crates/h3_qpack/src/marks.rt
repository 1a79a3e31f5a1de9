//! What an economical encoder keeps of the values that it wrote as literals.
ghost use Rattle.std.specs.Prelude.{◌≡◌, ◌<◌, ◌+◌, ◌*◌, ◌%◌, ◌^◌, ℕ, List, fold};
ghost use Rattle.h3_qpack.specs.Marks.{value_mark, no_marks, with_mark, is_marked};

use std::marker::Model;

/// How many marks are kept.
const MARKS: usize = 32;

/// How many bytes at the end of a value its mark goes by.
const MARKED_BYTES: usize = 16;

/// The mark of a value: of its length and its last bytes, so that a long value costs no more. Four bytes are taken at a time: one of them
/// waits for the others then in an addition alone.
fn value_mark(value: &[u8]) -> u32
    ensures { result ≡ value_mark value.now }
{
    let len = value.len();
    let mut rest = &value[len.saturating_sub(MARKED_BYTES)..];
    let mut mark = (len as u64) % 4294967296;
    // (the label names the loop in its proof)
    'fours: while let Some((four, behind)) = rest.split_first_chunk::<4>() {
        mark = behind_four(mark, four);
        rest = behind;
    }
    // (the label names the loop in its proof)
    'bytes: for byte in rest {
        mark = (31 * mark + *byte as u64) % 4294967296;
    }
    mark as u32
}

/// A mark after four bytes more.
fn behind_four(mark: u64, four: &[u8; 4]) -> u64
    requires { mark < 2 ^ 32 }
    ensures mark { result ≡ fold (λ mark byte. (31 * mark + byte) % 2 ^ 32) mark four.now }
    ensures below { result < 2 ^ 32 }
{
    let first = 31 * u64::from(four[0]) + u64::from(four[1]);
    let second = 31 * u64::from(four[2]) + u64::from(four[3]);
    (923521 * mark + 961 * first + second) % 4294967296
}

/// The marks of the last values, each in front of the next older one, and the last in front of the first. A contract sees them as a list of
/// 32 numbers, the newest first.
#[derive(Drop)]
pub(crate) struct Marks {
    marks: [u32; MARKS],
    // the place of the newest
    newest: usize,
}

impl Model for Marks {
    ghost use Rattle.std.specs.Prelude.{◌≡◌, ◌<◌, ◌++◌, ℕ, List, drop, length, take};

    ghost Value = { List ℕ };

    ghost view = { λ m. drop m.newest m.marks ++ take m.newest m.marks };

    ghost invariant = { λ m. (length m.marks ≡ 32) × (m.newest < 32) };
}

impl Marks {
    /// Before the first value.
    pub(crate) fn new() -> Marks
        ensures { result ≡ no_marks }
    {
        Marks {
            marks: [0; MARKS],
            newest: 0,
        }
    }

    /// Whether a value of this mark is among the last ones.
    pub(crate) fn has(&self, value: &[u8]) -> bool
        ensures { result ≡ is_marked self.now value.now }
    {
        let mark = value_mark(value);
        self.marks.contains(&mark)
    }

    /// Keeps the mark of a value in place of the oldest one.
    pub(crate) fn add(&mut self, value: &[u8])
        ensures { self.new ≡ with_mark self.old value.now }
    {
        let mark = value_mark(value);
        let oldest = place_before(self.newest);
        self.marks[oldest] = mark;
        self.newest = oldest;
    }
}

/// The place in front of one, which is the last in front of the first.
fn place_before(place: usize) -> usize
    requires { place < 32 }
    ensures first { place ≡ 0 → result ≡ 31 }
    ensures others { 0 < place → result + 1 ≡ place }
{
    if place == 0 {
        return MARKS - 1;
    }
    place - 1
}

//! Request streams on which something waits, found in the order of their ids: bytes, or an end.
ghost use Rattle.std.specs.Prelude.{◌≡◌, ◌≢◌, ◌<◌, ◌≤◌, ◌+◌, ◌*◌, ◌/◌, ◌%◌, ◌^◌, ◌==◌, ℕ, true, false, bit_and, bit_or, IfSome, IfNone};
ghost use Rattle.std.specs.Prelude.{OnOk, OnErr};
ghost use Rattle.std.specs.Int.{bit_not, w64};
ghost use Rattle.h3_connection.specs.NextWaiting.{IsLeast};
ghost use Rattle.h3_requests.specs.FirstWord.{IsFirstWord};
ghost use Rattle.h3_requests.specs.Lesser.{lesser_of};
ghost use Rattle.h3_requests.specs.Waiting.{has_place, is_any, is_waiting, places_at, waiting_at, word_at_number, IsClassFrom};
ghost use Rattle.h3_requests.specs.Waiting.{IsFirstClass, IsOnePlace, IsOneWord, HaveSameWords, KeepsOtherPlaces, PutIf};

use h3_proto::stream::StreamId;
use std::alloc::{AllocError, Global};

mod bounded;
mod bounds;
mod near;
mod word;
mod words;

use bounded::BoundedWords;
use word::Word;

/// The ids of request streams are four apart (RFC 9000, section 2.1).
const STEP: u64 = 4;

/// How many streams share a word.
const WORD: u64 = 64;

/// So many words have the bits of all request streams.
const WORDS: u64 = 1 << 54;

/// The greatest id that a request stream may have.
const LAST: u64 = (1 << 62) - STEP;

/// The words of a class begin so far after those of the one before. As that is one more than a class has, the words of the same ids of
/// different classes have places of their own in the row.
const STRIDE: u64 = WORDS + 1;

/// So many classes there are.
const CLASSES: u64 = 17;

/// The streams on which something waits, by a bit each in words of 64, and those that have a place. One that has a place is put in with no
/// memory. Each class has words of its own, after those of the class before.
#[derive(Drop)]
pub(crate) struct WaitingStreams {
    // of each number from that of its class on the streams from 256 times that on, if one has a place or something waits on it
    words: BoundedWords,
}

/// The number of the word in which a stream of a class has its bit.
fn word_of(class: u64, stream: u64) -> u64
    requires { class ≤ 16 }
    ensures { result ≡ word_at_number class (stream / 256) }
{
    class * STRIDE + stream / (STEP * WORD)
}

/// The stream's bit in its word.
fn bit_of(stream: u64) -> u64
    ensures { result ≡ 1 * 2 ^ (stream / 4 % 64) % 2 ^ 64 }
{
    1 << (stream / STEP % WORD)
}

/// The lesser of two ids.
fn earlier(one: Option<StreamId>, other: Option<StreamId>) -> Option<StreamId>
    ensures { result ≡ lesser_of one other }
{
    match (one, other) {
        (Some(first), Some(second)) => {
            if second.into_inner() < first.into_inner() {
                other
            } else {
                one
            }
        }
        (Some(_), None) => one,
        (None, _) => other,
    }
}

/// The stream of a place in a word; none beyond the last stream id.
fn stream_at(number: u64, place: u64) -> Option<StreamId>
    requires { place < 64 }
    ensures some { IfSome result (λ id. (id ≡ number * 256 + place * 4) × (id < 2 ^ 62)) }
    ensures none { IfNone result (2 ^ 62 ≤ number * 256 + place * 4) }
{
    if number >= WORDS {
        return None;
    }
    let Ok(id) = StreamId::try_from((number * WORD + place) * STEP) else {
        return None;
    };
    Some(id)
}

impl WaitingStreams {
    /// No stream. It takes no memory.
    pub(crate) fn new(alloc: Global) -> WaitingStreams
        ensures { (class q : ℕ) → is_waiting result class q ≡ false }
    {
        WaitingStreams {
            words: BoundedWords::new(alloc),
        }
    }

    /// Whether a request stream has a place in a word that is found with no search.
    pub(crate) fn has_near_place(&self, class: u64, id: StreamId) -> bool
        requires { class ≤ 16 }
        ensures { result ≡ true → has_place self.now class id ≡ true }
    {
        let number = id.into_inner();
        let Some(word) = self.words.near(word_of(class, number)) else {
            return false;
        };
        number % STEP == 0 && (word.places >> (number / STEP % WORD)) % 2 == 1
    }

    /// A place for a request stream, so that something can come to wait on it with no memory. On which it waits stays as it was.
    pub(crate) fn reserve(&mut self, class: u64, id: StreamId) -> Result<(), AllocError>
        requires { class ≤ 16 }
        ensures placed { OnOk result (has_place self.new class id ≡ true) }
        ensures kept { (c q : ℕ) → has_place self.old c q ≡ true → has_place self.new c q ≡ true }
        ensures same { (c q : ℕ) → is_waiting self.new c q ≡ is_waiting self.old c q }
    {
        let number = id.into_inner();
        if number % STEP != 0 {
            return Err(AllocError);
        }
        self.add_places(word_of(class, number), bit_of(number))
    }

    // Places are added to a word. (One that stands in the row is looked up once.)
    fn add_places(&mut self, number: u64, bits: u64) -> Result<(), AllocError>
        ensures ok { OnOk result (IsOneWord number (bit_or (places_at self.old number) bits) (places_at self.old) (places_at self.new)) }
        ensures err { OnErr result (HaveSameWords (places_at self.old) (places_at self.new)) }
        ensures waiting { HaveSameWords (waiting_at self.old) (waiting_at self.new) }
    {
        let Some(word) = self.words.near(number) else {
            return self.add_far_places(number, bits);
        };
        self.words.set_near_places(
            number,
            Word {
                places: word.places | bits,
                waiting: word.waiting,
            },
        );
        Ok(())
    }

    // The same wherever the word stands, and where it is not there.
    #[inline(never)]
    fn add_far_places(&mut self, number: u64, bits: u64) -> Result<(), AllocError>
        ensures ok { OnOk result (IsOneWord number (bit_or (places_at self.old number) bits) (places_at self.old) (places_at self.new)) }
        ensures err { OnErr result (HaveSameWords (places_at self.old) (places_at self.new)) }
        ensures waiting { HaveSameWords (waiting_at self.old) (waiting_at self.new) }
    {
        let there = self.words.get(number);
        self.words.put(
            number,
            Word {
                places: there.places | bits,
                waiting: there.waiting,
            },
        )
    }

    /// On a stream that has a place something waits from now on. It takes no memory.
    pub(crate) fn put(&mut self, class: u64, id: StreamId)
        requires few { class ≤ 16 }
        requires place { has_place self.old class id ≡ true }
        ensures put { IsOnePlace class id true (is_waiting self.old) (is_waiting self.new) }
        ensures places { (c q : ℕ) → has_place self.new c q ≡ has_place self.old c q }
    {
        let number = id.into_inner();
        self.add_waiting(word_of(class, number), bit_of(number));
    }

    /// The same if it is to wait, and nothing else.
    #[tactic(auto, using(crate::proofs::Classed::put_true, crate::proofs::Classed::put_false))]
    pub(crate) fn put_if(&mut self, class: u64, id: StreamId, waits: bool)
        requires few { class ≤ 16 }
        requires place { waits ≡ true → has_place self.old class id ≡ true }
        ensures put { PutIf class id waits (is_waiting self.old) (is_waiting self.new) }
        ensures places { (c q : ℕ) → has_place self.new c q ≡ has_place self.old c q }
    {
        if waits {
            self.put(class, id);
        }
    }

    // Streams are added to a word that is there.
    fn add_waiting(&mut self, number: u64, bits: u64)
        requires { places_at self.old number ≢ 0 }
        ensures waiting { IsOneWord number (bit_or (waiting_at self.old number) bits) (waiting_at self.old) (waiting_at self.new) }
        ensures places { HaveSameWords (places_at self.old) (places_at self.new) }
    {
        let Some(word) = self.words.near(number) else {
            self.add_far_waiting(number, bits);
            return;
        };
        self.words.set_near(
            number,
            Word {
                places: word.places,
                waiting: word.waiting | bits,
            },
        );
    }

    // The same wherever the word stands.
    #[inline(never)]
    fn add_far_waiting(&mut self, number: u64, bits: u64)
        requires { places_at self.old number ≢ 0 }
        ensures waiting { IsOneWord number (bit_or (waiting_at self.old number) bits) (waiting_at self.old) (waiting_at self.new) }
        ensures places { HaveSameWords (places_at self.old) (places_at self.new) }
    {
        let there = self.words.get(number);
        self.words.set(
            number,
            Word {
                places: there.places,
                waiting: there.waiting | bits,
            },
        );
    }

    /// Nothing waits on a stream any longer, and its place goes. It takes no memory.
    #[inline(always)]
    pub(crate) fn take(&mut self, class: u64, id: StreamId)
        requires { class ≤ 16 }
        ensures taken { IsOnePlace class id false (is_waiting self.old) (is_waiting self.new) }
        ensures places { KeepsOtherPlaces class id (has_place self.old) (has_place self.new) }
    {
        let number = id.into_inner();
        if number % STEP != 0 {
            return;
        }
        self.take_bits(word_of(class, number), bit_of(number));
    }

    // Takes bits out of a word.
    fn take_bits(&mut self, number: u64, bits: u64)
        ensures waiting { IsOneWord number (bit_and (waiting_at self.old number) (bit_not w64 bits)) (waiting_at self.old)
            (waiting_at self.new) }
        ensures places { IsOneWord number (bit_and (places_at self.old number) (bit_not w64 bits)) (places_at self.old)
            (places_at self.new) }
    {
        let Some(word) = self.words.near(number) else {
            self.take_far_bits(number, bits);
            return;
        };
        self.words.set_near(
            number,
            Word {
                places: word.places & !bits,
                waiting: word.waiting & !bits,
            },
        );
    }

    // The same wherever the word stands, and where it is not there.
    #[inline(never)]
    fn take_far_bits(&mut self, number: u64, bits: u64)
        ensures waiting { IsOneWord number (bit_and (waiting_at self.old number) (bit_not w64 bits)) (waiting_at self.old)
            (waiting_at self.new) }
        ensures places { IsOneWord number (bit_and (places_at self.old number) (bit_not w64 bits)) (places_at self.old)
            (places_at self.new) }
    {
        let there = self.words.get(number);
        if there.is_empty() {
            return;
        }
        self.words.set(
            number,
            Word {
                places: there.places & !bits,
                waiting: there.waiting & !bits,
            },
        );
    }

    /// The first stream of a class from this id on on which something waits. It takes no memory, and looks at 64 streams at once.
    #[inline(always)]
    pub(crate) fn next(&self, class: u64, from: u64) -> Option<StreamId>
        requires { class ≤ 16 }
        ensures { IsLeast (is_waiting self.now class) from result }
    {
        if from > LAST {
            return None;
        }
        let first = (from + (STEP - 1)) / STEP;
        let number = first / WORD;
        let base = class * STRIDE;
        let place = first % WORD;
        let here = self.waiting_in(base + number) >> place;
        if here != 0 {
            return stream_at(number, place + here.trailing_zeros() as u64);
        }
        let Some((later, word)) = self.next_word(base + (number + 1)) else {
            return None;
        };
        stream_at(later - base, word.trailing_zeros() as u64)
    }

    /// The first stream of any class from this id on on which something waits. It takes no memory, and looks at 64 streams of a class at
    /// once.
    #[inline(never)]
    pub(crate) fn next_of_any(&self, from: u64) -> Option<StreamId>
        ensures { IsLeast (is_any (is_waiting self.now)) from result }
    {
        let mut first = None;
        for class in 0..CLASSES {
            first = earlier(first, self.next(class, from));
        }
        first
    }

    /// The first class in which something waits on a stream. It takes no memory.
    pub(crate) fn first_class(&self) -> Option<u64>
        ensures first { IsFirstClass (is_waiting self.now) result }
        ensures few { IfSome result (λ class. class ≤ 16) }
    {
        let mut from = 0;
        for passed in 0..CLASSES {
            // (for the proof: each round passes a class)
            prove!(passed <= from);
            let Some(class) = self.class_from(from) else {
                return None;
            };
            if self.next(class, 0).is_some() {
                return Some(class);
            }
            from = class + 1;
        }
        None
    }

    // The class of the first word with something waiting, from that of a class on: nothing waits in the classes between. (One that is
    // returned has something waiting, since no word after those of its ids is used: `first_class` asks.)
    fn class_from(&self, from: u64) -> Option<u64>
        requires { from ≤ 17 }
        ensures { IsClassFrom (is_waiting self.now) from result }
    {
        let Some((number, _)) = self.next_word(from * STRIDE) else {
            return None;
        };
        let class = number / STRIDE;
        if class < CLASSES { Some(class) } else { None }
    }

    /// A stream has its place no longer. On which streams something waits stays as it was. It takes no memory.
    pub(crate) fn release(&mut self, class: u64, id: StreamId)
        requires { class ≤ 16 }
        ensures same { (c q : ℕ) → is_waiting self.new c q ≡ is_waiting self.old c q }
        ensures places { KeepsOtherPlaces class id (has_place self.old) (has_place self.new) }
    {
        let number = id.into_inner();
        if number % STEP != 0 {
            return;
        }
        self.take_places(word_of(class, number), bit_of(number));
    }

    // Takes places out of a word.
    fn take_places(&mut self, number: u64, bits: u64)
        ensures waiting { HaveSameWords (waiting_at self.old) (waiting_at self.new) }
        ensures places { IsOneWord number (bit_and (places_at self.old number) (bit_not w64 bits)) (places_at self.old)
            (places_at self.new) }
    {
        let Some(word) = self.words.near(number) else {
            self.take_far_places(number, bits);
            return;
        };
        self.words.set_near_places(
            number,
            Word {
                places: word.places & !bits,
                waiting: word.waiting,
            },
        );
    }

    // The same wherever the word stands, and where it is not there.
    #[inline(never)]
    fn take_far_places(&mut self, number: u64, bits: u64)
        ensures waiting { HaveSameWords (waiting_at self.old) (waiting_at self.new) }
        ensures places { IsOneWord number (bit_and (places_at self.old number) (bit_not w64 bits)) (places_at self.old)
            (places_at self.new) }
    {
        let there = self.words.get(number);
        if there.is_empty() {
            return;
        }
        self.words.set(
            number,
            Word {
                places: there.places & !bits,
                waiting: there.waiting,
            },
        );
    }

    // On which streams of a word something waits.
    fn waiting_in(&self, number: u64) -> u64
        ensures { result ≡ waiting_at self.now number }
    {
        self.words.waiting_in(number)
    }

    // The first word from this number on that has a stream on which something waits.
    #[inline(always)]
    fn next_word(&self, from: u64) -> Option<(u64, u64)>
        ensures { IsFirstWord (waiting_at self.now) from result }
    {
        self.words.next(from)
    }
}

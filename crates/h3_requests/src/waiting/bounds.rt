//! Between which numbers the words stand on whose streams something waits.
ghost use Rattle.std.specs.Prelude.{◌≡◌, ℕ};
ghost use Rattle.h3_requests.specs.Bounds.{AreWithin};
ghost use Rattle.h3_requests.specs.Words.{IsOneSet};
ghost use Rattle.h3_requests.specs.declared.waiting.word.Word.{Word as Bits};

use super::word::Word;

/// The least and the greatest number of a word on whose streams something may wait. If the least is above the greatest nothing waits.
#[derive(Clone, Copy)]
pub(crate) struct Bounds {
    pub(crate) lowest: u64,
    pub(crate) highest: u64,
}

impl Bounds {
    /// Those of words without streams on which something waits.
    pub(crate) fn none() -> Bounds
        ensures { (words : ℕ → Bits) → ((q : ℕ) → (words q).waiting ≡ 0) → AreWithin result words }
    {
        Bounds {
            lowest: 1,
            highest: 0,
        }
    }

    /// The word of this number is this one now.
    #[inline(always)]
    pub(crate) fn note(&mut self, number: u64, word: Word)
        ensures { (before after : ℕ → Bits) → AreWithin self.old before → IsOneSet number word before after → AreWithin self.new after }
    {
        if word.waiting == 0 {
            self.pass(number);
            return;
        }
        if self.lowest <= number && number <= self.highest {
            return;
        }
        self.widen(number);
    }

    // Nothing waits on the streams of this word.
    #[inline(always)]
    fn pass(&mut self, number: u64)
        ensures { (word : Bits) (before after : ℕ → Bits) → word.waiting ≡ 0 → AreWithin self.old before → IsOneSet number word before after
            → AreWithin self.new after }
    {
        if number != self.lowest {
            return;
        }
        self.lowest = number.saturating_add(1);
    }

    // Something waits on streams of this word.
    fn widen(&mut self, number: u64)
        ensures { (word : Bits) (before after : ℕ → Bits) → AreWithin self.old before → IsOneSet number word before after
            → AreWithin self.new after }
    {
        if self.lowest > self.highest {
            self.lowest = number;
            self.highest = number;
            return;
        }
        self.lowest = self.lowest.min(number);
        self.highest = self.highest.max(number);
    }
}

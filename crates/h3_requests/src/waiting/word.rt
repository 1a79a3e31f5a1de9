//! The bits of 64 request streams, one after the other.
ghost use Rattle.std.specs.Prelude.{◌≡◌};
ghost use Rattle.h3_requests.specs.Words.{is_empty};

/// Which of 64 streams have a place, and on which something waits.
#[derive(Clone, Copy)]
pub(crate) struct Word {
    pub(crate) places: u64,
    pub(crate) waiting: u64,
}

impl Word {
    /// Of no stream.
    pub(crate) const NONE: Word = Word {
        places: 0,
        waiting: 0,
    };

    /// Whether it has no bit.
    pub(crate) fn is_empty(&self) -> bool
        ensures { result ≡ is_empty self.now }
    {
        self.places == 0 && self.waiting == 0
    }
}

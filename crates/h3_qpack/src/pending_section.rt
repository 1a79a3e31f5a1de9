//! Encoded field sections that are not decoded yet.
ghost use Rattle.std.specs.Prelude.{◌≡◌};

use std::marker::Model;

/// An encoded field section of a stream.
#[derive(Drop)]
pub(crate) struct PendingSection {
    stream: u64,
    bytes: Vec<u8>,
}

impl Model for PendingSection {
    ghost use Rattle.h3_qpack.specs.Exchange.{EncodedSection};

    ghost Value = { EncodedSection };

    ghost view = { λ b. record { stream = b.stream; bytes = b.bytes.items } };
}

impl PendingSection {
    pub(crate) fn new(stream: u64, bytes: Vec<u8>) -> PendingSection
        ensures { result ≡ record { stream = stream; bytes = bytes.items } }
    {
        PendingSection { stream, bytes }
    }

    pub(crate) fn stream(&self) -> u64
        ensures { result ≡ self.now.stream }
    {
        self.stream
    }

    pub(crate) fn bytes(&self) -> &[u8]
        ensures { result.now ≡ self.now.bytes }
    {
        self.bytes.as_slice()
    }
}

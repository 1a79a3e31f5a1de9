//! What the type of a byte says.
ghost use Rattle.std.specs.List.{AllByRecursion};
ghost use Rattle.h3_huffman.specs.Payload.{IsByte};

/// Each item of a slice of bytes is below 256. It does nothing: a proof that needs the fact calls it.
pub(crate) fn are_bytes(bytes: &[u8])
    ensures { AllByRecursion IsByte bytes.now }
{
    let _ = bytes;
}

//! The Huffman encoding of a string.
ghost use Rattle.std.specs.Prelude.{◌≡◌, ◌^◌, ◌<◌, IfOk, length, ℕ, List, Some, codes};
ghost use Rattle.h3_huffman.specs.Huffman.{huffman};

use std::alloc::Global;
use std::fmt;

/// Out of memory, which is all that an encoder refuses for.
#[derive(Copy, Clone, PartialEq, Eq, Debug)]
pub struct Error;

impl fmt::Display for Error {
    ghost output = { λ e. Some (codes "out of memory") };

    fn fmt<W: fmt::Write>(&self, f: &mut fmt::Formatter<W>) -> fmt::Result {
        write!(f, "out of memory")
    }
}

impl std::error::Error for Error {}

/// What has a Huffman encoding (RFC 7541, section 5.2 and appendix B).
pub trait HpackStringEncode {
    ghost string: { Self → List ℕ };

    /// The Huffman encoding.
    fn hpack_encode(&self, alloc: Global) -> Result<Vec<u8>, Error>
        requires { length (string self.now) < 2 ^ 62 }
        ensures { IfOk result (λ encoded. encoded.items ≡ huffman (string self.now)) };
}

impl HpackStringEncode for Vec<u8> {
    ghost string = { λ bytes. bytes.items };

    fn hpack_encode(&self, alloc: Global) -> Result<Vec<u8>, Error> {
        let len = h3_huffman::encode::payload_len(self.as_slice());
        let Ok(mut encoded) = vec![in alloc; 0u8; len] else {
            return Err(Error);
        };
        h3_huffman::encode::encode_into(self.as_slice(), &mut encoded);
        Ok(encoded)
    }
}

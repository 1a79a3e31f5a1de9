//! Pieces of one byte each, which lie in one block.
ghost use Rattle.std.specs.Prelude.{◌≡◌, ◌<◌, ◌≤◌, ◌++◌, [], ◌∷◌, true, false, length, drop, IfOk};

use bytes::Bytes;
use std::alloc::{AllocError, Global};
use std::marker::Model;

// So many lie in one block at most: what was passed of a run is kept until the run is.
const MOST: usize = 4096;

/// Pieces of one byte each.
#[derive(Debug, Drop)]
pub struct Singles {
    bytes: Vec<u8>,
    passed: usize,
}

impl Model for Singles {
    ghost use Rattle.std.specs.Prelude.{◌≤◌, ℕ, List, length, drop};

    ghost Value = { List ℕ };

    ghost view = { λ s. drop s.passed s.bytes.items };

    ghost invariant = { λ s. s.passed ≤ length s.bytes.items };
}

impl Singles {
    /// That of one byte.
    pub(crate) fn new(alloc: Global, byte: u8) -> Result<Singles, AllocError>
        ensures { IfOk result (λ s. s ≡ byte ∷ []) }
    {
        let mut bytes = Vec::new(alloc);
        bytes.push(byte)?;
        Ok(Singles { bytes, passed: 0 })
    }

    /// Adds a byte, and answers whether there was room for it.
    pub(crate) fn push(&mut self, byte: u8) -> bool
        ensures taken { result ≡ true → self.new ≡ self.old ++ byte ∷ [] }
        ensures same { result ≡ false → self.new ≡ self.old }
    {
        self.bytes.len() < MOST && self.bytes.push(byte).is_ok()
    }

    /// The bytes that are left.
    pub(crate) fn as_slice(&self) -> &[u8]
        ensures { result.now ≡ self.now }
    {
        &self.bytes.as_slice()[self.passed..]
    }

    /// Passes so many bytes.
    pub(crate) fn advance(&mut self, count: usize)
        requires { count ≤ length self.old }
        ensures { self.new ≡ drop count self.old }
    {
        self.passed += count;
    }
}

// Each byte, in its order.
static BYTES: [u8; 256] = [
    0, 1, 2, 3, 4, 5, 6, 7, 8, 9, 10, 11, 12, 13, 14, 15, 16, 17, 18, 19, 20, 21, 22, 23, 24, 25,
    26, 27, 28, 29, 30, 31, 32, 33, 34, 35, 36, 37, 38, 39, 40, 41, 42, 43, 44, 45, 46, 47, 48, 49,
    50, 51, 52, 53, 54, 55, 56, 57, 58, 59, 60, 61, 62, 63, 64, 65, 66, 67, 68, 69, 70, 71, 72, 73,
    74, 75, 76, 77, 78, 79, 80, 81, 82, 83, 84, 85, 86, 87, 88, 89, 90, 91, 92, 93, 94, 95, 96, 97,
    98, 99, 100, 101, 102, 103, 104, 105, 106, 107, 108, 109, 110, 111, 112, 113, 114, 115, 116,
    117, 118, 119, 120, 121, 122, 123, 124, 125, 126, 127, 128, 129, 130, 131, 132, 133, 134, 135,
    136, 137, 138, 139, 140, 141, 142, 143, 144, 145, 146, 147, 148, 149, 150, 151, 152, 153, 154,
    155, 156, 157, 158, 159, 160, 161, 162, 163, 164, 165, 166, 167, 168, 169, 170, 171, 172, 173,
    174, 175, 176, 177, 178, 179, 180, 181, 182, 183, 184, 185, 186, 187, 188, 189, 190, 191, 192,
    193, 194, 195, 196, 197, 198, 199, 200, 201, 202, 203, 204, 205, 206, 207, 208, 209, 210, 211,
    212, 213, 214, 215, 216, 217, 218, 219, 220, 221, 222, 223, 224, 225, 226, 227, 228, 229, 230,
    231, 232, 233, 234, 235, 236, 237, 238, 239, 240, 241, 242, 243, 244, 245, 246, 247, 248, 249,
    250, 251, 252, 253, 254, 255,
];

/// The piece of one byte. It takes no memory.
pub(crate) fn single(byte: u8) -> Bytes
    ensures { result ≡ byte ∷ [] }
{
    Bytes::from_static(part(usize::from(byte)))
}

fn part(byte: usize) -> &'static [u8]
    requires { byte < 256 }
    ensures { result.now ≡ byte ∷ [] }
{
    &BYTES[byte..byte + 1]
}

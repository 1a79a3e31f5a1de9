//! Room for the bytes before a payload.
ghost use Rattle.std.specs.Prelude.{◌≡◌, ◌-◌, ◌≤◌, [], ◌++◌, length, take, drop, OnOk, OnErr};
ghost use Rattle.bytes.specs.Filled.{UsesSpare, MakesSpare, UsesMaxSpare, KeepsMaxSpare};

use bytes::BufMut;
use std::alloc::AllocError;
use std::marker::Model;

/// What is written before a payload: at most `N` bytes, with no memory of their own. A contract sees the bytes.
#[derive(Drop)]
pub struct Head<const N: usize> {
    bytes: [u8; N],
    len: usize,
}

impl<const N: usize> Model for Head<N> {
    ghost use Rattle.std.specs.Prelude.{◌≡◌, ℕ, ◌≤◌, List, length, take};

    ghost Value = { List ℕ };

    ghost view = { λ h. take h.len h.bytes };

    ghost invariant = { λ h. (h.len ≤ N) × (length h.bytes ≡ N) × (N ≤ 152) };
}

impl<const N: usize> Head<N> {
    /// No bytes yet, and room for `N`.
    pub fn new() -> Head<N>
        requires { N ≤ 152 }
        ensures { result ≡ [] }
    {
        Head {
            bytes: [0; N],
            len: 0,
        }
    }

    /// How many bytes were written.
    pub fn len(&self) -> usize
        ensures value { result ≡ length self.now }
        ensures bound { result ≤ 152 }
    {
        self.len
    }

    /// The bytes from a place on.
    pub fn from(&self, position: usize) -> &[u8]
        requires { position ≤ length self.now }
        ensures { result.now ≡ drop position self.now }
    {
        let all = &self.bytes[..];
        &all[position..self.len]
    }
}

impl<const N: usize> BufMut for Head<N> {
    ghost written = { λ h. h };

    ghost spare = { λ h. N - length h };

    fn reserve(&mut self, additional: usize) -> Result<(), AllocError> {
        if additional <= N - self.len {
            Ok(())
        } else {
            Err(AllocError)
        }
    }

    fn put_slice(&mut self, src: &[u8]) -> Result<(), AllocError> {
        if N - self.len < src.len() {
            return Err(AllocError);
        }
        let end = self.len + src.len();
        let all = &mut self.bytes[..];
        all[self.len..end].copy_from_slice(src);
        self.len = end;
        Ok(())
    }
}

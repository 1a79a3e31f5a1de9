//! Bytes of a local stream that wait to be taken.
ghost use Rattle.std.specs.Prelude.{◌≡◌, ◌≤◌, ◌-◌, ◌++◌, length, drop, OnOk, OnErr};
ghost use Rattle.std.specs.Borrow.{Lends, sem};
ghost use Rattle.h3_unidirectional.specs.Rows.{bytes_row};
ghost use Rattle.h3_unidirectional.specs.contracts.waiting.WaitingBytes.{the_row};

use std::alloc::{AllocError, Global};
use std::marker::Model;

/// The bytes of a stream that were written and not taken. A contract sees them as a list of bytes.
#[derive(Drop)]
pub struct WaitingBytes {
    bytes: Vec<u8>,
    // how many at the front were taken, so that taking moves no byte
    taken: usize,
}

impl Model for WaitingBytes {
    ghost use Rattle.std.specs.Prelude.{ℕ, List, drop};

    ghost Value = { List ℕ };

    ghost view = { λ w. drop w.taken w.bytes.items };
}

/// Adds bytes at the end. One byte is pushed, since a call to copy it would cost more. A refusal changes nothing.
#[inline(always)]
pub(crate) fn keep(kept: &mut Vec<u8>, bytes: &[u8]) -> Result<(), AllocError>
    ensures ok { OnOk result (kept.new.items ≡ kept.old.items ++ bytes.now) }
    ensures err { OnErr result (kept.new.items ≡ kept.old.items) }
{
    if bytes.len() == 1 {
        kept.push(bytes[0])?;
        return Ok(());
    }
    kept.extend_from_slice(bytes)
}

/// Drops the first `count` bytes, or all if there are fewer.
pub(crate) fn drop_front(bytes: &mut Vec<u8>, count: usize)
    ensures { bytes.new.items ≡ drop count bytes.old.items }
{
    if count >= bytes.len() {
        bytes.clear();
        return;
    }
    bytes.drain(..count);
}

/// Drops so many bytes at the front, once they are more than half, and answers how many still stand there.
fn let_go(bytes: &mut Vec<u8>, taken: usize) -> usize
    ensures rest { drop result bytes.new.items ≡ drop taken bytes.old.items }
    ensures within { result ≤ length bytes.new.items }
{
    if taken <= bytes.len() / 2 {
        return taken;
    }
    drop_front(bytes, taken);
    0
}

impl WaitingBytes {
    /// All of these bytes wait.
    pub fn from_vec(bytes: Vec<u8>) -> WaitingBytes
        ensures { result ≡ bytes.items }
    {
        WaitingBytes { bytes, taken: 0 }
    }

    /// The bytes that wait.
    pub fn as_slice(&self) -> &[u8]
        ensures { result.now ≡ self.now }
    {
        let taken = self.taken.min(self.bytes.len());
        &self.bytes[taken..]
    }

    /// How many bytes wait.
    pub fn len(&self) -> usize
        ensures { result ≡ length self.now }
    {
        self.bytes.len().saturating_sub(self.taken)
    }

    /// Takes the first `count` bytes, of which no more than all may be taken. It needs no memory. The bytes that wait are moved once
    /// more were taken than wait, so for each byte that was taken at most one is moved.
    pub fn advance(&mut self, count: usize)
        requires { count ≤ length self.old }
        ensures { self.new ≡ drop count self.old }
    {
        self.taken = let_go(&mut self.bytes, self.taken + count);
    }

    /// Lends what waits as a vector, so that more can be written after it. If some of it was taken, the rest is moved.
    pub fn bytes_mut(&mut self) -> &mut Vec<u8>
        ensures* writes_back { sem 𝓛 (Lends the_row bytes_row self.entry result (λ bytes. bytes.items)) }
        ensures value { result.now.items ≡ self.old }
    {
        drop_front(&mut self.bytes, self.taken);
        self.taken = 0;
        &mut self.bytes
    }

    /// Lends a vector to write after what waits, which is its end: bytes that were taken may stand in front of it, as many as wait at
    /// most. So it moves no more bytes than were taken since it last moved any.
    pub fn behind_mut(&mut self) -> &mut Vec<u8>
        ensures* writes_back { sem 𝓛 (Lends the_row bytes_row self.entry result
            (λ bytes. drop (length result.now.items - length self.old) bytes.items)) }
        ensures value { drop (length result.now.items - length self.old) result.now.items ≡ self.old }
    {
        self.taken = let_go(&mut self.bytes, self.taken);
        &mut self.bytes
    }

    /// Adds bytes at the end. A refusal changes nothing.
    pub fn append(&mut self, bytes: &[u8]) -> Result<(), AllocError>
        ensures ok { OnOk result (self.new ≡ self.old ++ bytes.now) }
        ensures err { OnErr result (self.new ≡ self.old) }
    {
        self.behind_mut().extend_from_slice(bytes)
    }
}

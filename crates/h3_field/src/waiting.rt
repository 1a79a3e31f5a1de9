//! What an instruction that is not whole waits for, so that bytes which leave it unfinished need not be read again.
ghost use Rattle.std.specs.Prelude.{◌≡◌, ◌≤◌, ℕ, List, ◌++◌, OnOk, IfOk, IfErr};
ghost use Rattle.h3_field.specs.Waiting.{goes_on, are_empty_groups, behind, integer_wait, string_wait, number_wait, name_reference_wait};
ghost use Rattle.h3_field.specs.Waiting.{literal_name_wait, encoder_wait, decoder_wait};

use crate::cursor::SliceCursor;
use crate::prefix_int::{Error, decode};

/// What an instruction that is not whole waits for.
#[derive(Copy, Clone, PartialEq, Eq, Debug)]
pub enum Wait {
    /// Nothing: it is whole, or bad, and stays so whatever comes after it.
    Nothing,
    /// The end of an integer, which groups of no worth do not bring (RFC 7541, section 5.1).
    Integer,
    /// So many bytes at least: the first one of an integer, or those that a string lacks.
    Bytes(usize),
}

/// Whether these are groups of an integer that are worth nothing, after each of which another one has to come.
fn are_empty_groups(bytes: &[u8]) -> bool
    ensures { result ≡ are_empty_groups bytes.now }
{
    bytes.iter().all(|byte| *byte == 128)
}

impl Wait {
    /// Whether more has to come before the instruction is whole or bad.
    pub fn goes_on(self) -> bool
        ensures { result ≡ goes_on self }
    {
        match self {
            Wait::Nothing => false,
            Wait::Integer => true,
            Wait::Bytes(count) => count > 0,
        }
    }

    /// What it waits for after these bytes. None: they may have brought it, so they have to be looked at.
    fn behind(self, bytes: &[u8]) -> Option<Wait>
        ensures { result ≡ behind self bytes.now }
    {
        match self {
            Wait::Nothing => Some(Wait::Nothing),
            Wait::Integer => are_empty_groups(bytes).then_some(Wait::Integer),
            Wait::Bytes(count) => {
                if bytes.len() < count {
                    Some(Wait::Bytes(count - bytes.len()))
                } else {
                    None
                }
            }
        }
    }
}

/// Takes the integer at the front. If it is bad or not whole, it answers what there is to wait for.
fn take_integer(size: u8, buf: &mut SliceCursor<'_>) -> Result<usize, Wait>
    requires least { 1 ≤ size }
    requires most { size ≤ 8 }
    ensures ok { IfOk result (λ n. (next : ℕ → List ℕ → Wait) → integer_wait size next buf.old ≡ next n buf.new) }
    ensures err { IfErr result (λ w. (next : ℕ → List ℕ → Wait) → integer_wait size next buf.old ≡ w) }
{
    let is_empty = buf.remaining() == 0;
    match decode(size, buf) {
        Ok((_, value)) => Ok(value as usize),
        Err(Error::Overflow) => Err(Wait::Nothing),
        Err(Error::UnexpectedEnd) => Err(if is_empty {
            Wait::Bytes(1)
        } else {
            Wait::Integer
        }),
    }
}

/// Takes the string at the front, likewise.
fn take_string(size: u8, buf: &mut SliceCursor<'_>) -> Result<(), Wait>
    requires least { 2 ≤ size }
    requires most { size ≤ 8 }
    ensures ok { OnOk result ((next : List ℕ → Wait) → string_wait size next buf.old ≡ next buf.new) }
    ensures err { IfErr result (λ w. (next : List ℕ → Wait) → string_wait size next buf.old ≡ w) }
{
    let count = take_integer(size - 1, buf)?;
    let left = buf.remaining();
    if left < count {
        return Err(Wait::Bytes(count - left));
    }
    buf.advance(count);
    Ok(())
}

/// What an integer alone waits for.
fn number_wait(size: u8, bytes: &[u8]) -> Wait
    requires least { 1 ≤ size }
    requires most { size ≤ 8 }
    ensures { result ≡ number_wait size bytes.now }
{
    match take_integer(size, &mut SliceCursor::new(bytes)) {
        Ok(_) => Wait::Nothing,
        Err(wait) => wait,
    }
}

/// What Insert With Name Reference waits for (RFC 9204, section 4.3.2).
fn name_reference_wait(bytes: &[u8]) -> Wait
    ensures { result ≡ name_reference_wait bytes.now }
{
    let mut ahead = SliceCursor::new(bytes);
    if let Err(wait) = take_integer(6, &mut ahead) {
        return wait;
    }
    match take_string(8, &mut ahead) {
        Ok(()) => Wait::Nothing,
        Err(wait) => wait,
    }
}

/// What Insert With Literal Name waits for (RFC 9204, section 4.3.3).
fn literal_name_wait(bytes: &[u8]) -> Wait
    ensures { result ≡ literal_name_wait bytes.now }
{
    let mut ahead = SliceCursor::new(bytes);
    if let Err(wait) = take_string(6, &mut ahead) {
        return wait;
    }
    match take_string(8, &mut ahead) {
        Ok(()) => Wait::Nothing,
        Err(wait) => wait,
    }
}

/// What the encoder instruction at the front waits for (RFC 9204, section 4.3): the first byte, if there is none.
pub fn encoder_wait(bytes: &[u8]) -> Wait
    ensures { result ≡ encoder_wait bytes.now }
{
    if bytes.is_empty() {
        return Wait::Bytes(1);
    }
    let first = bytes[0];
    if first >= 0b1000_0000 {
        name_reference_wait(bytes)
    } else if first >= 0b0100_0000 {
        literal_name_wait(bytes)
    } else {
        number_wait(5, bytes)
    }
}

/// What the decoder instruction at the front waits for (RFC 9204, section 4.4), likewise.
pub fn decoder_wait(bytes: &[u8]) -> Wait
    ensures { result ≡ decoder_wait bytes.now }
{
    if bytes.is_empty() {
        return Wait::Bytes(1);
    }
    if bytes[0] >= 0b1000_0000 {
        number_wait(7, bytes)
    } else {
        number_wait(6, bytes)
    }
}

/// What the encoder instruction at the front of `unread` waits for, if `came` came after bytes of which it was `before`. While that goes on
/// no other byte is looked at.
pub fn encoder_wait_behind(before: Wait, came: &[u8], unread: &[u8]) -> Wait
    ensures { (front : List ℕ) → before ≡ encoder_wait front → unread.now ≡ front ++ came.now → result ≡ encoder_wait unread.now }
{
    match before.behind(came) {
        Some(wait) => wait,
        None => encoder_wait(unread),
    }
}

/// What the decoder instruction at the front of `unread` waits for, likewise.
pub fn decoder_wait_behind(before: Wait, came: &[u8], unread: &[u8]) -> Wait
    ensures { (front : List ℕ) → before ≡ decoder_wait front → unread.now ≡ front ++ came.now → result ≡ decoder_wait unread.now }
{
    match before.behind(came) {
        Some(wait) => wait,
        None => decoder_wait(unread),
    }
}

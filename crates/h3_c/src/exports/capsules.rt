//! What C calls: capsules (RFC 9297, section 3.2).
ghost use Rattle.std.specs.Prelude.{◌≡◌};
ghost use Rattle.h3_c.specs.Datagrams.{capsule_head_given, ReadsCapsule, ShowsEnds};
ghost use Rattle.h3_c.specs.Numbers.{number};

use crate::capsules::{CapsuleTold, put_head, shown};
use crate::numbers::{ARGUMENT, OK};
use h3_capsule::capsule::{CapsuleReader, ReaderState, head};

/// A type and a length are below this number.
const LIMIT: u64 = 1 << 62;

/// What the next bytes of capsules tell.
#[tactic(auto, using(crate::proofs::Datagrams::reads_capsule))]
#[unsafe(no_mangle)]
pub extern "C" fn h3_raw_read_capsule(
    reader: &mut ReaderState,
    bytes: &[u8],
    used: &mut usize,
    capsule: &mut CapsuleTold,
) -> u32
    ensures { ReadsCapsule reader.old reader.new bytes.now result used.new capsule.new }
{
    let mut inside = CapsuleReader::of_state(*reader);
    let (count, told) = inside.read(bytes);
    *reader = inside.state();
    *used = count;
    *capsule = shown(told);
    OK.number
}

/// What stands in front of a capsule's value.
#[tactic(auto, using(crate::proofs::Datagrams::gives_capsule_head, crate::proofs::Datagrams::takes_no_type, crate::proofs::Datagrams::takes_no_length))]
#[unsafe(no_mangle)]
pub extern "C" fn h3_raw_capsule_head(
    capsule_type: u64,
    length: u64,
    buffer: &mut [u8],
    count: &mut usize,
) -> u32
    ensures { (number result 0, buffer.new, count.new) ≡ capsule_head_given capsule_type length buffer.old count.old }
{
    if capsule_type >= LIMIT {
        return ARGUMENT.number;
    }
    if length >= LIMIT {
        return ARGUMENT.number;
    }
    put_head(&head(capsule_type, length), buffer, count).number
}

/// Whether the data may end at the place of a reader.
#[unsafe(no_mangle)]
pub extern "C" fn h3_raw_capsule_ends(reader: &ReaderState, ends: &mut u32) -> u32
    ensures { ShowsEnds reader.now result ends.new }
{
    *ends = CapsuleReader::of_state(*reader).is_between() as u32;
    OK.number
}

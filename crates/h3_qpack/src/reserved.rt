//! Instructions that are one integer, written into room that is there: they ask for no memory (RFC 9204, sections 4.3.1 and 4.4.3).
ghost use Rattle.std.specs.Prelude.{◌≡◌, ◌+◌, ◌^◌, ◌<◌, ◌≤◌, ◌++◌, vec_len};
ghost use Rattle.std.specs.Vec.{vec_capacity};
ghost use Rattle.h3_field.specs.Instruction.{encoder_bytes};
ghost use Rattle.h3_field.specs.Instruction.EncoderInstruction.{SetCapacity};
ghost use Rattle.h3_qpack.specs.Increments.{increment_for};

use h3_field::prefix_int;

/// The most bytes that the instruction for a capacity takes.
pub const CAPACITY_LEN: usize = 6;

/// The most bytes that an increment takes.
pub const INCREMENT_LEN: usize = 10;

/// Appends the instruction for a capacity to a buffer that has room for it.
pub fn put_capacity(capacity: u64, out: &mut Vec<u8>)
    requires small { capacity < 2 ^ 30 }
    requires room { vec_len out.old + 6 ≤ vec_capacity out.old }
    ensures { out.new.items ≡ out.old.items ++ encoder_bytes (SetCapacity capacity) }
{
    prefix_int::put(5, 1, capacity, out);
}

// RFC 9204 4.4.3: insert count increment, written
/// Appends an increment by so many insertions, and nothing for none.
pub fn put_increment(count: usize, write: &mut Vec<u8>)
    requires few { count < 2 ^ 62 }
    requires room { vec_len write.old + 10 ≤ vec_capacity write.old }
    ensures { write.new.items ≡ write.old.items ++ increment_for count }
{
    if count == 0 {
        return;
    }
    prefix_int::put(6, 0, count as u64, write);
}

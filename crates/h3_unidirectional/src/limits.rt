//! Instructions that are longer than their reader takes (RFC 9114, section 10.5), how bytes are read so that none is, and how many ids are
//! kept.
ghost use Rattle.std.specs.Prelude.{◌≡◌, ◌+◌, ◌≤◌, ◌&&◌, nat_lt};
ghost use Rattle.h3_proto.specs.Config.{is_limit};
ghost use Rattle.h3_connection.specs.Endpoint.{most_kept};
ghost use Rattle.h3_connection.specs.ExcessiveInstructions.{missing};
ghost use Rattle.h3_connection.specs.KeptGoaways.{keeps_last};
ghost use Rattle.h3_unidirectional.specs.Windows.{window, is_longer};

use h3_coding::varint::VarInt;
use h3_field::waiting::Wait;
use h3_proto::config::Choices;

/// Whether this is a limit: the greatest integer of variable length stands for none.
fn is_limit(most: u64) -> bool
    ensures { result ≡ is_limit most }
{
    most < VarInt::MAX.into_inner()
}

/// How many ids are kept, if the choices limit them.
pub(crate) fn most_kept(choices: Choices) -> Option<usize>
    ensures { result ≡ most_kept choices }
{
    let most = choices.extensions.kept_ids;
    if is_limit(most) {
        Some(most as usize)
    } else {
        None
    }
}

/// Whether of the ids of GOAWAY frames the last one alone is kept.
pub(crate) fn keeps_last(choices: Choices) -> bool
    ensures { result ≡ keeps_last choices }
{
    is_limit(choices.extensions.kept_ids)
}

/// How many bytes are known to be missing.
fn missing(wait: Wait) -> usize
    ensures { result ≡ missing wait }
{
    match wait {
        Wait::Nothing => 0,
        Wait::Integer => 1,
        Wait::Bytes(count) => count,
    }
}

/// How many of `len` bytes are looked at at once, so that what is whole among them is within the limit.
pub(crate) fn window(most: u64, len: usize) -> usize
    ensures value { result ≡ window most len }
    ensures fits { result ≤ len }
{
    if is_limit(most) {
        len.min(most as usize)
    } else {
        len
    }
}

// RFC 9114 10.5: unfinished_limit of instructions
/// Whether an instruction is longer than the limit, of which `len` bytes came and which is not whole within the limit. It is longer if
/// some came, and with what is missing they are more.
pub(crate) fn is_longer(most: u64, len: usize, wait: Wait) -> bool
    ensures { result ≡ is_longer most len wait }
{
    is_limit(most) && len > 0 && is_above(most, len as u64, missing(wait) as u64)
}

/// Whether the sum is above the limit. It is not added up, since a string may say any length.
fn is_above(most: u64, len: u64, missing: u64) -> bool
    ensures { result ≡ nat_lt most (len + missing) }
{
    len > most || missing > most - len
}

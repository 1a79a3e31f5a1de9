//! Classes of streams: by urgency, incremental or not, and those that are held.
ghost use Rattle.std.specs.Prelude.{◌≡◌, ◌≤◌};
ghost use Rattle.h3_requests.specs.Classes.{class_of};

use h3_connection::order::Precedence;

/// The class of a stream that is held, whatever its priority. It stands after all others.
pub(crate) const HELD: u64 = 16;

/// The class of a stream of which nothing was said: urgency 3, not incremental.
pub(crate) const PLAIN: u64 = 6;

/// The class of a stream. A class of a more urgent stream is less, and of one urgency the streams that are not incremental come first.
#[inline(always)]
pub(crate) fn class_of(precedence: &Precedence) -> u64
    ensures value { result ≡ class_of precedence.now }
    ensures few { result ≤ 16 }
    ensures urgency { precedence.now.priority.urgency ≤ 7 }
{
    let urgency = precedence.priority.urgency() as u64;
    if precedence.is_held {
        return HELD;
    }
    urgency * 2 + precedence.priority.is_incremental() as u64
}

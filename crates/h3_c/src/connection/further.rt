//! Connections that announce further settings.
ghost use Rattle.std.specs.Prelude.{◌≡◌, ◌<◌, ◌≤◌, IfOk, IfErr, IfSome, IsNone, Ok, Some, None, take};
ghost use Rattle.h3_connection.specs.SendingContracts.{CreatesWith};
ghost use Rattle.h3_connection.specs.declared.lists.ListPull.TheVariants as answer;
ghost use Rattle.h3_c.specs.Configs.{announced_of, sessions_of, side_of};
ghost use Rattle.h3_c.specs.Further.{UnmakesWith, pairs_given};
ghost use Rattle.h3_c.specs.Numbers.{argument};
ghost use Rattle.h3_session.specs.Events.{nothing_seen};

use super::Connection;
use crate::config::{GivenConfig, endpoint_with, side_of};
use crate::numbers::{ARGUMENT, MEMORY, Told, unmade};
use crate::owned::boxed;
use h3_proto::frame::RESERVED_NUMBERS;
use std::alloc::Global;

/// So many further settings at most.
const MOST: usize = 8;

/// Pairs of an id and a value, and how many there are.
#[derive(Copy, Clone)]
pub(crate) struct GivenPairs {
    pub(crate) pairs: [(u64, u64); MOST],
    pub(crate) len: usize,
}

impl GivenPairs {
    /// Of these numbers, an id and a value in turn. None: one is left over, or there are more than eight pairs.
    #[tactic(auto, using(crate::proofs::Pairing::left_over, crate::proofs::Pairing::too_many))]
    pub(crate) fn of(numbers: &[u64]) -> Option<GivenPairs>
        ensures some { IfSome result (λ p. pairs_given numbers.now ≡ Some (take p.len p.pairs)) }
        ensures none { IsNone result → pairs_given numbers.now ≡ None }
    {
        let len = numbers.len() / 2;
        if numbers.len() % 2 != 0 {
            return None;
        }
        if len > MOST {
            return None;
        }
        let mut pairs = [(0, 0); MOST];
        for at in 0..len {
            pairs[at] = (numbers[2 * at], numbers[2 * at + 1]);
        }
        Some(GivenPairs { pairs, len })
    }

    /// The pairs.
    pub(crate) fn as_slice(&self) -> &[(u64, u64)]
        ensures { result.now ≡ take self.now.len self.now.pairs }
    {
        let count = self.len.min(MOST);
        &self.pairs[..count]
    }
}

/// The connection that is asked for, with these further settings.
#[tactic(auto, using(crate::proofs::MakingWith::lacks_with, crate::proofs::MakingWith::refused_with))]
pub(crate) fn made_with(
    alloc: Global,
    given: &GivenConfig,
    further: &GivenPairs,
) -> Result<Box<Connection>, Told>
    ensures near { IfOk result (λ b. given.now.grease < 0x210842108421083) }
    ensures made { IfOk result (λ b. CreatesWith (side_of given.now) (announced_of given.now) (take further.now.len further.now.pairs)
        (Ok b.value.endpoint)) }
    ensures sessions { IfOk result (λ b. b.value.sessions ≡ sessions_of (side_of given.now) given.now) }
    ensures last { IfOk result (λ b. b.value.last ≡ answer.Pending) }
    ensures events { IfOk result (λ b. b.value.events ≡ nothing_seen) }
    ensures far { IfErr result (λ told. 0x210842108421083 ≤ given.now.grease → told ≡ argument) }
    ensures refused { IfErr result (λ told. given.now.grease < 0x210842108421083
        → UnmakesWith given.now (take further.now.len further.now.pairs) told) }
{
    if given.grease >= RESERVED_NUMBERS {
        return Err(ARGUMENT);
    }
    match endpoint_with(alloc, given, further.as_slice()) {
        Ok(endpoint) => match boxed(
            alloc,
            Connection::of(alloc, endpoint, side_of(given), given.sessions != 0),
        ) {
            Ok(connection) => Ok(connection),
            Err(_) => Err(MEMORY),
        },
        Err(e) => Err(unmade(&e)),
    }
}

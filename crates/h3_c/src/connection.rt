//! What a handle owns.
ghost use Rattle.std.specs.Prelude.{◌≡◌, ◌<◌, ◌≤◌, IfOk, IfErr, Ok};
ghost use Rattle.h3_connection.specs.SendingContracts.{Creates};
ghost use Rattle.h3_connection.specs.declared.lists.ListPull.TheVariants as answer;
ghost use Rattle.h3_c.specs.Configs.{side_of, announced_of, sessions_of, Unmakes};
ghost use Rattle.h3_webtransport.specs.Joint.{first_joint};
ghost use Rattle.h3_c.specs.Numbers.{argument};
ghost use Rattle.h3_session.specs.Events.{nothing_seen};

use crate::config::{GivenConfig, endpoint_of, side_of};
use crate::numbers::{ARGUMENT, MEMORY, Told, unmade};
use crate::owned::boxed;
use h3_field::BorrowedFields;
use h3_incoming::BlockPull;
use h3_proto::frame::RESERVED_NUMBERS;
use h3_proto::stream::Side;
use h3_session::EventsSeen;
use h3_session::endpoint::Endpoint;
use h3_webtransport::Sessions;
use std::alloc::Global;
use std::marker::Model;

mod closing;
mod datagrams;
mod ending;
mod events;
mod further;
mod heads;
mod items;
mod kinds;
mod ordering;
mod outgoing;
mod reading;
mod receiving;
mod remembered;
mod sending;
mod sessions;
mod showing;
mod shutdown;
mod unblocked;

pub(crate) use further::{GivenPairs, made_with};
pub(crate) use remembered::made_resumed;

/// An endpoint, what the last pull answered, and what was reported of the connection. A contract sees each as it is.
#[derive(Drop)]
pub struct Connection {
    endpoint: Endpoint,
    sessions: Sessions,
    last: BlockPull,
    events: EventsSeen,
    // memory for the list that is sent: no field and no byte of it is here between two calls
    spare: BorrowedFields<'static>,
}

impl Model for Connection {
    ghost use Rattle.h3_c.specs.Seen.{Seen};
    ghost use Rattle.h3_field.specs.BorrowedFields.{in_front_of};
    ghost use Rattle.std.specs.Prelude.{◌≡◌, []};

    ghost Value = { Seen };

    ghost view = { λ c. record { endpoint = c.endpoint; sessions = c.sessions; last = c.last; events = c.events } };

    ghost invariant = { λ c. c.spare ≡ in_front_of [] };
}

impl Connection {
    /// Nothing was pulled yet, and nothing was reported.
    pub(crate) fn of(
        alloc: Global,
        endpoint: Endpoint,
        side: Side,
        has_sessions: bool,
    ) -> Connection
        ensures { result
            ≡ record { endpoint = endpoint; sessions = first_joint side has_sessions; last = answer.Pending; events = nothing_seen } }
    {
        Connection {
            endpoint,
            sessions: Sessions::new(alloc, side, has_sessions),
            last: BlockPull::new(alloc),
            events: EventsSeen::new(),
            spare: BorrowedFields::new(alloc),
        }
    }
}

/// The connection that is asked for.
pub(crate) fn made(alloc: Global, given: &GivenConfig) -> Result<Box<Connection>, Told>
    ensures near { IfOk result (λ b. given.now.grease < 0x210842108421083) }
    ensures made { IfOk result (λ b. Creates (side_of given.now) (announced_of given.now) (Ok b.value.endpoint)) }
    ensures sessions { IfOk result (λ b. b.value.sessions ≡ sessions_of (side_of given.now) given.now) }
    ensures last { IfOk result (λ b. b.value.last ≡ answer.Pending) }
    ensures events { IfOk result (λ b. b.value.events ≡ nothing_seen) }
    ensures far { IfErr result (λ told. 0x210842108421083 ≤ given.now.grease → told ≡ argument) }
    ensures refused { IfErr result (λ told. given.now.grease < 0x210842108421083 → Unmakes given.now told) }
{
    if given.grease >= RESERVED_NUMBERS {
        return Err(ARGUMENT);
    }
    made_in_range(alloc, given)
}

#[tactic(auto, using(crate::proofs::Making::lacks_memory, crate::proofs::Making::refused))]
fn made_in_range(alloc: Global, given: &GivenConfig) -> Result<Box<Connection>, Told>
    requires { given.now.grease < 0x210842108421083 }
    ensures made { IfOk result (λ b. Creates (side_of given.now) (announced_of given.now) (Ok b.value.endpoint)) }
    ensures sessions { IfOk result (λ b. b.value.sessions ≡ sessions_of (side_of given.now) given.now) }
    ensures last { IfOk result (λ b. b.value.last ≡ answer.Pending) }
    ensures events { IfOk result (λ b. b.value.events ≡ nothing_seen) }
    ensures refused { IfErr result (Unmakes given.now) }
{
    match endpoint_of(alloc, given) {
        Ok(endpoint) => match boxed(
            alloc,
            Connection::of(alloc, endpoint, side_of(given), given.sessions != 0),
        ) {
            Ok(connection) => Ok(connection),
            Err(_) => Err(MEMORY),
        },
        Err(e) => Err(unmade(&e)),
    }
}

//! Settings that a client remembers of its server.
ghost use Rattle.std.specs.Prelude.{◌≡◌, ◌⊎◌, ◌<◌, ◌≤◌, IfOk, IfErr, Ok, take};
ghost use Rattle.h3_connection.specs.Remembering.{remembering};
ghost use Rattle.h3_connection.specs.SendingContracts.{CreatesWith};
ghost use Rattle.h3_connection.specs.declared.lists.ListPull.TheVariants as answer;
ghost use Rattle.h3_proto.specs.declared.stream.Side.TheVariants.{Client};
ghost use Rattle.h3_c.specs.Configs.{announced_of, sessions_of};
ghost use Rattle.h3_c.specs.Numbers.{argument};
ghost use Rattle.h3_c.specs.Remembered.{GivesSettings, LacksMemory, ShowsKept, UnmakesResumed};
ghost use Rattle.h3_session.specs.Events.{nothing_seen};

use super::{Connection, GivenPairs};
use crate::config::{GivenConfig, endpoint_resumed};
use crate::numbers::{ARGUMENT, MEMORY, NONE, OK, ROOM, Told, unmade};
use crate::owned::boxed;
use h3_proto::frame::{RESERVED_NUMBERS, Settings};
use h3_proto::stream::Side;
use std::alloc::Global;

impl Connection {
    /// Copies the settings of the server that came, to be remembered.
    #[tactic(auto, using(crate::proofs::Remembering::lacks_memory, crate::proofs::Remembering::none_came, crate::proofs::Remembering::lacks_room, crate::proofs::Remembering::copied))]
    pub(crate) fn remember_settings(
        &self,
        alloc: Global,
        buffer: &mut [u8],
        count: &mut usize,
    ) -> Told
        ensures { LacksMemory result buffer.old buffer.new count.old count.new
            ⊎ GivesSettings self.now result buffer.old buffer.new count.old count.new }
    {
        let Some(settings) = self.endpoint.peer_settings() else {
            return NONE;
        };
        let len = settings.payload_len();
        if buffer.len() < len {
            return ROOM;
        }
        let mut payload = Vec::new(alloc);
        let Ok(()) = settings.write_payload(&mut payload) else {
            return MEMORY;
        };
        buffer[..len].copy_from_slice(payload.as_slice());
        *count = len;
        OK
    }

    /// Whether the settings that came keep to those that were remembered.
    #[tactic(auto, using(crate::proofs::Remembering::malformed, crate::proofs::Remembering::not_come, crate::proofs::Remembering::judged))]
    pub(crate) fn settings_kept(&self, bytes: &[u8], kept: &mut u32) -> Told
        ensures { ShowsKept self.now bytes.now result kept.old kept.new }
    {
        let mut rest = bytes;
        let Ok(remembered) = Settings::read_payload(&mut rest) else {
            return ARGUMENT;
        };
        match self.endpoint.peer_settings() {
            Some(settings) => {
                *kept = settings.keeps_to(&remembered) as u32;
                OK
            }
            None => NONE,
        }
    }
}

/// The client that is asked for, with these further settings, that remembers those.
#[tactic(auto, using(crate::proofs::MakingWith::lacks_resumed, crate::proofs::MakingWith::refused_resumed))]
pub(crate) fn made_resumed(
    alloc: Global,
    given: &GivenConfig,
    further: &GivenPairs,
    remembered: Settings,
) -> Result<Box<Connection>, Told>
    ensures near { IfOk result (λ b. given.now.grease < 0x210842108421083) }
    ensures made { IfOk result (λ b. CreatesWith Client (remembering (announced_of given.now) remembered)
        (take further.now.len further.now.pairs) (Ok b.value.endpoint)) }
    ensures sessions { IfOk result (λ b. b.value.sessions ≡ sessions_of Client given.now) }
    ensures last { IfOk result (λ b. b.value.last ≡ answer.Pending) }
    ensures events { IfOk result (λ b. b.value.events ≡ nothing_seen) }
    ensures far { IfErr result (λ told. 0x210842108421083 ≤ given.now.grease → told ≡ argument) }
    ensures refused { IfErr result (λ told. given.now.grease < 0x210842108421083
        → UnmakesResumed given.now (take further.now.len further.now.pairs) remembered told) }
{
    if given.grease >= RESERVED_NUMBERS {
        return Err(ARGUMENT);
    }
    match endpoint_resumed(alloc, given, further.as_slice(), remembered) {
        Ok(endpoint) => match boxed(
            alloc,
            Connection::of(alloc, endpoint, Side::Client, given.sessions != 0),
        ) {
            Ok(connection) => Ok(connection),
            Err(_) => Err(MEMORY),
        },
        Err(e) => Err(unmade(&e)),
    }
}

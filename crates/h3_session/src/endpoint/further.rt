//! Endpoints that announce further settings, or remember those of an earlier connection.
ghost use Rattle.std.specs.Prelude.{◌≡◌, ◌<◌, ◌^◌, OnOk, Ok};
ghost use Rattle.h3_proto.specs.Config.{announced};
ghost use Rattle.h3_connection.specs.Announcing.{announced_by};
ghost use Rattle.h3_connection.specs.Endpoint.{new_endpoint, new_endpoint_with};
ghost use Rattle.h3_connection.specs.OwnSettings.{control_start};
ghost use Rattle.h3_connection.specs.Remembering.{remembering};
ghost use Rattle.h3_connection.specs.SendingContracts.{CreatesWith};
ghost use Rattle.h3_connection.specs.State.{StandsFor};
ghost use Rattle.h3_connection.specs.declared.setup.Announced.{Announced};
ghost use Rattle.h3_proto.specs.declared.stream.Side.{Side};
ghost use Rattle.h3_proto.specs.declared.stream.Side.TheVariants.{Client};

use super::Endpoint;
use h3_connection::setup::{Announced, Limits, NewError};
use h3_proto::config::Config;
use h3_proto::frame::Settings;
use h3_proto::stream::Side;
use h3_streams::streams::ConnectionStreams;
use std::alloc::{AllocError, Global};

impl Endpoint {
    /// An endpoint as `new` makes it, whose SETTINGS frame has these pairs of an id and a value after the other settings, at most eight.
    /// They are for an extension that the caller speaks. What `new` refuses comes first. Then the first pair is refused whose id is one of
    /// HTTP/2's or is announced already, as each id that has a meaning is, or came before; then a ninth one, and an id or a value of 2^62
    /// or more.
    pub fn new_with(
        alloc: Global,
        side: Side,
        config: Config,
        limits: Limits,
        grease: u64,
        further: &[(u64, u64)],
    ) -> Result<Endpoint, NewError>
        requires { grease < 0x210842108421083 }
        ensures { CreatesWith side (announced_by (announced config grease) limits config.choices) further.now result }
    {
        let announced = match Announced::new(config, limits, grease) {
            Ok(announced) => announced,
            Err(e) => return Err(e),
        };
        Endpoint::beginning_with(alloc, side, announced, further)
    }

    /// A client as `new_with` makes it, that remembers these settings of its server from an earlier connection, for what it sends before
    /// the server's settings come (RFC 9114, section 7.2.4.2). It keeps to their limit of field sections and, if strict, sends `:protocol`
    /// if they allow it; so it sends datagrams. Its encoder uses no table until the server's settings come (RFC 9204, section 3.2.3).
    pub fn new_resumed(
        alloc: Global,
        config: Config,
        limits: Limits,
        grease: u64,
        further: &[(u64, u64)],
        remembered: Settings,
    ) -> Result<Endpoint, NewError>
        requires { grease < 0x210842108421083 }
        ensures { CreatesWith Client (remembering (announced_by
            (announced config grease) limits config.choices) remembered) further.now result }
    {
        let mut announced = match Announced::new(config, limits, grease) {
            Ok(announced) => announced,
            Err(e) => return Err(e),
        };
        announced.remembered = Some(remembered);
        Endpoint::beginning_with(alloc, Side::Client, announced, further)
    }

    // An endpoint of what is announced, with further settings.
    #[tactic(auto, using(crate::proofs::BeginningWith::further_refused, crate::proofs::BeginningWith::no_memory_with, crate::proofs::BeginningWith::made_with))]
    fn beginning_with(
        alloc: Global,
        side: Side,
        announced: Announced,
        further: &[(u64, u64)],
    ) -> Result<Endpoint, NewError>
        requires { announced.limits.table < 2 ^ 30 }
        ensures { CreatesWith side (Ok announced) further.now result }
    {
        let settings = match announced.settings.further(further) {
            Ok(settings) => settings,
            Err(e) => return Err(NewError::Settings(e)),
        };
        let Ok(mut endpoint) = Endpoint::announcing(alloc, side, announced) else {
            return Err(NewError::OutOfMemory);
        };
        let Ok(()) = endpoint.begin_with(&settings) else {
            return Err(NewError::OutOfMemory);
        };
        Ok(endpoint)
    }

    // A new endpoint announces these settings too.
    fn begin_with(&mut self, further: &Settings) -> Result<(), AllocError>
        ensures { OnOk result ((side : Side) (announced : Announced) → StandsFor self.old (new_endpoint side announced)
            → StandsFor self.new (new_endpoint_with side announced further.now)) }
    {
        write_start(
            &mut self.streams,
            self.alloc,
            &self.announced.settings,
            further,
        )
    }
}

/// The local control stream, of which nothing was taken, begins with these settings. A refusal changes nothing.
fn write_start(
    streams: &mut ConnectionStreams,
    alloc: Global,
    settings: &Settings,
    further: &Settings,
) -> Result<(), AllocError>
    ensures { OnOk result
        (streams.new ≡ record streams.old { own = record streams.old.own { control = control_start settings.now further.now } }) }
{
    streams.own.begin_with(alloc, settings, further)
}

//! One endpoint of a connection.
ghost use Rattle.std.specs.Prelude.{◌<◌, ◌^◌, IfOk};
ghost use Rattle.h3_proto.specs.Config.{announced};
ghost use Rattle.h3_connection.specs.Announcing.{announced_by};
ghost use Rattle.h3_connection.specs.Endpoint.{new_endpoint};
ghost use Rattle.h3_connection.specs.SendingContracts.{Creates};
ghost use Rattle.h3_connection.specs.State.{StandsFor};

use h3_coding::varint::VarInt;
use h3_connection::arrival::Arrival;
use h3_connection::order::SendOrder;
use h3_connection::setup::{Announced, Limits, NewError};
use h3_proto::config::Config;
use h3_proto::error::Code;
use h3_proto::stream::{Side, StreamId};
use h3_requests::RequestStreams;
use h3_streams::streams::ConnectionStreams;
use std::alloc::{AllocError, Global};
use std::collections::VecDeque;
use std::marker::Model;

mod beside;
mod bodies;
mod closing;
mod copying;
mod datagrams;
mod ending;
mod events;
mod frame_left;
mod further;
mod heads;
mod kinds;
mod lacking;
mod lists;
mod next;
mod opening;
mod ordering;
mod prioritizing;
mod pulling;
mod reading;
mod receiving;
mod sending;
mod showing;
mod shutdown;
mod strict;
mod unblocked;
mod unread;

pub use closing::ClosedStream;
pub use datagrams::{DatagramError, DatagramRead};
pub use events::{ConnectionEvent, EventsSeen};

/// One endpoint of a connection: what was sent and what came on all its streams. It reads no socket: the caller delivers what
/// comes, and takes what waits to be sent. A contract sees it as the definitions' `EndpointState`.
#[derive(Drop)]
pub struct Endpoint {
    alloc: Global,
    side: Side,
    announced: Announced,
    closed: Option<Code>,
    next_id: u64,
    requests: RequestStreams,
    streams: ConnectionStreams,
    last_goaway: Option<VarInt>,
    kept: VecDeque<Arrival>,
    sent: u64,
    order: SendOrder,
    // a section is written in it: what it has says nothing, and a contract does not see it
    block: Vec<u8>,
}

impl Model for Endpoint {
    ghost use Rattle.h3_connection.specs.State.{EndpointState};

    ghost Value = { EndpointState };

    ghost view = { λ e. record {
      side = e.side;
      announced = e.announced;
      closed = e.closed;
      next_id = e.next_id;
      requests = e.requests;
      unidirectional = e.streams.unidirectional;
      control_on = e.streams.control_on;
      encoder_on = e.streams.encoder_on;
      decoder_on = e.streams.decoder_on;
      peer = e.streams.peer;
      decoding = e.streams.decoding;
      encoding = e.streams.encoding;
      own = e.streams.own;
      last_goaway = e.last_goaway;
      kept = e.kept.items;
      sent = e.sent;
      order = e.order;
    } };
}

impl Endpoint {
    /// An endpoint that announces these settings and limits, with a reserved setting by `grease`. Its control stream begins with its type
    /// and the settings, its encoder and decoder streams with their types (RFC 9114, section 6.2.1; RFC 9204, section 4.2). Refused are
    /// first a table above 2^30 - 1 bytes, then more than 65535 blocked streams, then the settings. Last is a limit on what is unfinished
    /// below the size of the field sections that are announced.
    pub fn new(
        alloc: Global,
        side: Side,
        config: Config,
        limits: Limits,
        grease: u64,
    ) -> Result<Endpoint, NewError>
        requires { grease < 0x210842108421083 }
        ensures { Creates side (announced_by (announced config grease) limits config.choices) result }
    {
        let announced = match Announced::new(config, limits, grease) {
            Ok(announced) => announced,
            Err(e) => return Err(e),
        };
        let Ok(endpoint) = Endpoint::announcing(alloc, side, announced) else {
            return Err(NewError::OutOfMemory);
        };
        Ok(endpoint)
    }

    /// The same of what is announced, with a table of at most 2^30 - 1 bytes. (It stands in its callers: an endpoint that is returned is
    /// cleared and moved by each call.)
    #[inline(always)]
    pub fn announcing(
        alloc: Global,
        side: Side,
        announced: Announced,
    ) -> Result<Endpoint, AllocError>
        requires { announced.limits.table < 2 ^ 30 }
        ensures { IfOk result (λ endpoint. StandsFor endpoint (new_endpoint side announced)) }
    {
        let streams = ConnectionStreams::new(alloc, &announced)?;
        Ok(Endpoint {
            alloc,
            side,
            announced,
            closed: None,
            next_id: 0,
            requests: RequestStreams::new(alloc),
            streams,
            last_goaway: None,
            kept: VecDeque::new(alloc),
            sent: 0,
            order: SendOrder {
                rounds: None,
                control_is_held: false,
                encoder_is_held: false,
                decoder_is_held: false,
            },
            block: Vec::new(alloc),
        })
    }

    /// Frees the endpoint, as the end of its scope does. A program proves the drop of each type that it drops itself, some forty for an
    /// endpoint. One that frees each of its endpoints by this call proves none of them. No clause says that the memory of the endpoint is
    /// given back: that is tested (`tests/c`), and what a drop frees rests on the types that it drops.
    pub fn free(self) {
        drop(self);
    }
}

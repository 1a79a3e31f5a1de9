//! Room for the frame of a field section.
ghost use Rattle.std.specs.Prelude.{◌≡◌, true};
ghost use Rattle.h3_requests.specs.Ready.{is_listed};

use crate::ready::ReadyStreams;
use h3_outgoing::FrameRoom;
use h3_proto::stream::StreamId;
use std::marker::Model;

/// Room for the frame of one field section on a stream: a place in its queue, and one among the ids of streams on which bytes wait. Only
/// `reserve_head` and `reserve_trailer` hand it out, and a section is sent for it. A contract sees the stream's id.
#[derive(Drop)]
pub struct SectionRoom {
    id: StreamId,
    frame: FrameRoom,
}

impl Model for SectionRoom {
    ghost use Rattle.std.specs.Prelude.{ℕ};

    ghost Value = { ℕ };

    ghost view = { λ r. r.id };
}

impl SectionRoom {
    // The room of a stream that is among these ids, and whose queue has a place.
    pub(crate) fn of(
        class: u64,
        id: StreamId,
        frame: FrameRoom,
        _ready: &ReadyStreams,
    ) -> SectionRoom
        requires { is_listed _ready.now class id ≡ true }
        ensures { result ≡ id }
    {
        SectionRoom { id, frame }
    }

    /// The stream that it is on.
    pub fn id(&self) -> StreamId
        ensures { result ≡ self.now }
    {
        self.id
    }

    // The place in the stream's queue.
    pub(crate) fn into_frame(self) -> FrameRoom {
        self.frame
    }
}

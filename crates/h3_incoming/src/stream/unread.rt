//! How much of what came is still held.
ghost use Rattle.std.specs.Prelude.{◌≡◌};
ghost use Rattle.std.specs.Prelude.{if◌then◌else◌, length};
ghost use Rattle.std.specs.List.{concat};
ghost use Rattle.h3_frames.specs.UnknownSize.{held_length};
ghost use Rattle.h3_connection.specs.StrictConnection.{kinds_of};
ghost use Rattle.h3_connection.specs.Unread.{begins_frame, is_message, held_of_request, counted};

use super::IncomingStream;
use h3_connection::place::Place;
use h3_connection::setup::Announced;

impl IncomingStream {
    /// How many bytes came and are held, at most the greatest `usize`. These are those that were not read, none of an unknown frame that is
    /// under way, and those of the field section that waits to be decoded.
    pub fn held(&self, announced: &Announced) -> usize
        ensures { result ≡ counted (held_of_request announced.now self.now) }
    {
        let waiting = match &self.section {
            Some(section) => section.len(),
            None => 0,
        };
        self.held_unread(announced).saturating_add(waiting)
    }

    // Those that were not read.
    fn held_unread(&self, announced: &Announced) -> usize
        ensures { result ≡
            (if begins_frame self.now then held_length (kinds_of announced.now) (concat self.now.unread) else length
            (concat self.now.unread)) }
    {
        if self.begins_frame() {
            return self.unread.held(announced.kinds());
        }
        self.unread.len()
    }

    // Whether a frame is next.
    pub(super) fn begins_frame(&self) -> bool
        ensures { result ≡ begins_frame self.now }
    {
        self.body_left == 0 && !self.section.is_some() && self.is_message()
    }

    // Whether its bytes are those of a message.
    pub(super) fn is_message(&self) -> bool
        ensures { result ≡ is_message self.now.place }
    {
        match self.place {
            Place::InSession => false,
            Place::BeforeHead | Place::InBody | Place::AfterTrailer => true,
        }
    }
}

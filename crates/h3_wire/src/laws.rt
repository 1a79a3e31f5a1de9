//! What holds of every stream of frames. These functions do nothing: their contracts are the laws.
ghost use Rattle.std.specs.Prelude.{◌≡◌, ℕ, List, ◌++◌};
ghost use Rattle.h3_wire.specs.Asking.{ReadsOnce, Rounds};
ghost use Rattle.h3_wire.specs.OneAnswer.{IsFunction, OneAnswer, OneStart};
ghost use Rattle.h3_wire.specs.Buffering.{AnswersFrom};
ghost use Rattle.h3_wire.specs.Starting.{StartRounds};
ghost use Rattle.h3_wire.specs.Reads.{reads, then_more};
ghost use Rattle.h3_wire.specs.declared.frame.payload_left.PayloadLeft.{PayloadLeft};

use crate::quic::RecvStream;
pub use h3_frames::laws::{
    less_than_a_frame_is_unfinished, refused_stays_refused, written_is_read,
};

/// However bytes are cut, they read alike: what a front of them reads as is settled, but for its
/// rest, which more bytes only continue.
pub fn cuts_do_not_matter()
    ensures { (payload : PayloadLeft) (bytes more : List ℕ) → reads payload (bytes ++ more) ≡ then_more (reads payload bytes) more }
{}

/// What a stream of frames, a stream whose type is read, or a buffered stream answers and leaves
/// rests on its buffer and source alone. If the source has one answer, so has each call, unless an
/// allocation fails.
pub fn answers_rest_on_buffer_and_source<S: RecvStream>()
    ensures frame { IsFunction S.answers → OneAnswer (Rounds S.answers) }
    ensures piece { IsFunction S.answers → OneAnswer (ReadsOnce S.answers) }
    ensures start { IsFunction S.answers → OneStart (StartRounds S.answers) }
    ensures buffered { IsFunction S.answers → IsFunction (AnswersFrom S.answers) }
{}

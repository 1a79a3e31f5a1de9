//! What holds of streams of sessions. These functions do nothing: their contracts are the laws.
ghost use Rattle.std.specs.Prelude.{◌≡◌, ◌+◌, ◌*◌, ℕ, ◌%◌, ◌^◌, ◌<◌, ◌≤◌, List, [], ◌∷◌, ◌++◌, length, Some};
ghost use Rattle.h3_webtransport_streams.specs.Carrying.{Begins, Step, coming, handed, sessions_told};
ghost use Rattle.h3_webtransport_streams.specs.Codes.{code_of, number_of};
ghost use Rattle.h3_webtransport_streams.specs.Rows.{RowsHold};
ghost use Rattle.h3_webtransport_streams.specs.Sender.{Sender, beginning, front_both_ways};
ghost use Rattle.h3_webtransport_streams.specs.Sent.{Call, all_done, all_taken, all_written};
ghost use Rattle.h3_webtransport_streams.specs.SessionStream.{unseen};
ghost use Rattle.h3_webtransport_streams.specs.Turns.{Turn, WaitsThrough};

/// What QUIC took of a stream and what waits are its front and the bytes that were sent after it, over any calls but a reset.
#[tactic(auto, using(crate::proofs::Sent::taken_was_sent))]
pub fn what_is_taken_was_sent()
    ensures { (front : List ℕ) (calls : List Call)
        → all_taken (beginning front) calls ++ (all_done (beginning front) calls).waiting ≡ front ++ all_written (beginning front) calls }
{}

/// What a client gets of a stream that its server opened for a session is a beginning of what was sent, however it is cut and whenever it
/// is pulled.
#[tactic(auto, using(crate::proofs::Carried::hands_out))]
pub fn hands_out_what_was_sent()
    ensures { (session : ℕ) (sent more : List ℕ) (steps : List Step) → session < 2 ^ 62 → session % 4 ≡ 0
        → coming steps ++ more ≡ front_both_ways session ++ sent → Begins (handed unseen steps) sent }
{}

/// No other session is named, and none twice.
#[tactic(auto, using(crate::proofs::Carried::tells_session))]
pub fn tells_its_session()
    ensures { (session : ℕ) (sent more : List ℕ) (steps : List Step) → session < 2 ^ 62 → session % 4 ≡ 0
        → coming steps ++ more ≡ front_both_ways session ++ sent → Begins (sessions_told unseen steps) (session ∷ []) }
{}

/// The code of an application's number is that of no other number, and no reserved one (RFC 9114, section 8.1).
#[tactic(auto, using(crate::proofs::CodesBack::reads_back, crate::proofs::CodesBack::is_not_reserved))]
pub fn codes_read_back()
    ensures back { (number : ℕ) → number < 2 ^ 32 → number_of (code_of number) ≡ Some number }
    ensures free { (number n : ℕ) → code_of number ≡ 0x1f * n + 0x21 → ⊥ }
{}

/// A stream that waits has its turn, whichever streams are opened, send or are held meanwhile. So many turns of others, of ids below
/// `bound`, come first at most.
#[tactic(auto, using(crate::proofs::Turns::has_its_turn))]
pub fn each_has_its_turn()
    ensures { (waiting bound from : ℕ) (turns : List Turn) → WaitsThrough waiting bound from turns → length turns ≤ from + bound }
{}

/// Worked examples.
#[tactic(auto, using(crate::proofs::RowsHold::rows_hold))]
pub fn rows_hold()
    ensures { RowsHold }
{}

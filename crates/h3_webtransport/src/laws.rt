//! What holds of sessions beside an endpoint. This function does nothing: its contract is the law.
ghost use Rattle.std.specs.Prelude.{◌≡◌, ℕ, false};
ghost use Rattle.h3_webtransport.specs.Joint.{Joint, has_stream, is_one_way, is_read, may_begin};

/// If sessions are off, no stream is one of a session, and none is read here: each call is the endpoint's.
#[tactic(auto, using(crate::proofs::Off::none_is_stored, crate::proofs::Off::none_is_read, crate::proofs::Off::none_one_way, crate::proofs::Off::none_begins))]
pub fn off_is_the_endpoint()
    ensures stored { (s : Joint) (id : ℕ) → s.is_on ≡ false → has_stream s id ≡ false }
    ensures read { (s : Joint) (id : ℕ) → s.is_on ≡ false → is_read s id ≡ false }
    ensures one_way { (s : Joint) (id : ℕ) → s.is_on ≡ false → is_one_way s id ≡ false }
    ensures begun { (s : Joint) (id : ℕ) → s.is_on ≡ false → may_begin s id ≡ false }
{}

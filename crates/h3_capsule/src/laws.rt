//! What holds of capsules. These functions do nothing: their contracts are the laws.
ghost use Rattle.std.specs.Prelude.{◌≡◌, ℕ, ◌%◌, ◌^◌, ◌<◌, List, [], ◌++◌, length, take, Some};
ghost use Rattle.h3_coding.specs.Encodings.{IsEncoding};
ghost use Rattle.h3_capsule.specs.Capsule.{Place, capsule_head, read_on};
ghost use Rattle.h3_capsule.specs.Capsule.Place.{InHead};
ghost use Rattle.h3_capsule.specs.Datagram.{datagram_of, datagram_head};
ghost use Rattle.h3_capsule.specs.Rows.{RowsHold};
ghost use Rattle.h3_capsule.specs.Told.{Part, told, then_told, parts_of_capsule, TellsItsBytes, Calls, TellsAll};

/// Bytes tell alike in any cut.
#[tactic(auto, using(crate::proofs::Telling::cut))]
pub fn any_cut_tells_alike()
    ensures { (place : Place) (bytes more : List ℕ)
        → told place (bytes ++ more) ≡ then_told (told place bytes).0 (told (told place bytes).1 more) }
{}

/// A call tells what the bytes that it took tell.
pub fn a_call_tells_its_bytes()
    ensures { (place : Place) (bytes : List ℕ)
        → TellsItsBytes place (take (read_on place bytes).0 bytes) (read_on place bytes).1 (read_on place bytes).2 }
{}

/// Calls one after another, with the bytes in any pieces, tell what all the bytes tell that they took.
#[tactic(auto, using(crate::proofs::Telling::all_calls))]
pub fn any_calls_tell_their_bytes()
    ensures { (place : Place) (bytes : List ℕ) (parts : List Part) (last : Place) → Calls place bytes parts last
        → TellsAll place bytes parts last }
{}

/// The reader tells a capsule as it is, whatever follows: its type and its length, in whatever encodings, each byte of its value, and its
/// end.
pub fn a_capsule_is_told_as_it_is()
    ensures { (kind : ℕ) (value k l more : List ℕ) → IsEncoding kind k → IsEncoding (length value) l
        → told (InHead []) ((k ++ l) ++ (value ++ more)) ≡ then_told (parts_of_capsule kind value) (told (InHead []) more) }
{}

/// So is one that is written.
pub fn what_is_written_is_told()
    ensures { (kind : ℕ) (value more : List ℕ) → kind < 2 ^ 62 → length value < 2 ^ 62
        → told (InHead []) (capsule_head kind (length value) ++ (value ++ more)) ≡ then_told (parts_of_capsule kind value)
        (told (InHead []) more) }
{}

/// What is written in front of a datagram's payload reads back as the id of its stream, and the rest is the payload.
pub fn datagrams_read_back()
    ensures { (id : ℕ) (payload : List ℕ) → id < 2 ^ 62 → id % 4 ≡ 0 → datagram_of (datagram_head id ++ payload) ≡ Some (id, payload) }
{}

/// Worked examples.
#[tactic(auto, using(crate::proofs::RowsHold::rows_hold))]
pub fn rows_hold()
    ensures { RowsHold }
{}

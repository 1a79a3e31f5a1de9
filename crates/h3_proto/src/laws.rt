//! What holds of settings and their payloads. These functions do nothing: their contracts are the laws.
ghost use Rattle.std.specs.Prelude.{◌≡◌, ◌≤◌, ◌<◌, ◌^◌, ℕ, true, List, [], ◌∷◌, ◌++◌, length, All, Ok, Err, Some};
ghost use Rattle.std.specs.List.{AllByRecursion};
ghost use Rattle.h3_coding.specs.Encodings.{IsByte};
ghost use Rattle.h3_proto.specs.KeptLaws.{never_exceeded};
ghost use Rattle.h3_proto.specs.declared.frame.SettingsError.TheVariants.{Exceeded};
ghost use Rattle.h3_proto.specs.PayloadLaws.{payload_stands, written_payload, accepted_is_payload};
ghost use Rattle.h3_proto.specs.Pairs.{IsPair, payload_of};
ghost use Rattle.h3_proto.specs.Payloads.{IsPayload, StandsFor};
ghost use Rattle.h3_proto.specs.Settings.{known_ids, ids_differ, are_known, value_of, received_all, settings_of};
ghost use Rattle.h3_proto.specs.Config.{announced, own_pairs, table_pairs, peer_settings};
ghost use Rattle.h3_proto.specs.declared.config.Config.{Config};
ghost use Rattle.h3_proto.specs.declared.config.Settings.{Settings};

use crate::frame;
use crate::frame::SettingId;
use crate::stream::{Side, StreamId, StreamType};

/// The payload of pairs, in whatever encodings, stands for the pairs, received in order.
#[tactic(auto, using(crate::specs::PayloadLaws::payload_stands))]
pub fn payload_stands_for_its_pairs()
    ensures { (pairs : List (ℕ × ℕ)) (bytes : List ℕ) → IsPayload pairs bytes
        → settings_of bytes ≡ received_all [] pairs }
{}

/// What is written of pairs is a payload of them.
#[tactic(auto, using(crate::specs::PayloadLaws::written_payload))]
pub fn what_is_written_is_a_payload()
    ensures { (pairs : List (ℕ × ℕ)) → All IsPair pairs → IsPayload pairs (payload_of pairs) }
{}

/// Bytes that are accepted are the payload of some pairs, and what is kept are these, received in
/// order.
#[tactic(auto, using(crate::specs::PayloadLaws::accepted_is_payload))]
pub fn what_is_accepted_is_a_payload()
    ensures { (bytes : List ℕ) (kept : List (ℕ × ℕ)) → AllByRecursion IsByte bytes
        → settings_of bytes ≡ Ok kept → StandsFor bytes kept }
{}

/// No payload has too many settings: seven ids are known, and a repeated one is refused.
#[tactic(auto, using(crate::specs::KeptLaws::never_exceeded))]
pub fn reading_never_exceeds()
    ensures { (payload : List ℕ) → settings_of payload ≡ Err Exceeded → ⊥ }
{}

/// Settings are at most eight, have an encoding, and no two of them have one id.
pub fn settings_differ(settings: &frame::Settings)
    ensures few { length settings.now ≤ 8 }
    ensures pairs { All IsPair settings.now }
    ensures differ { ids_differ settings.now ≡ true }
{
    // (for the proof: at most eight settings, no id twice)
    settings.known();
}

/// The payload of settings that have a meaning is read back as these settings.
pub fn kept_settings_read_back()
    ensures { (pairs : List (ℕ × ℕ)) → All IsPair pairs → are_known pairs ≡ true → ids_differ pairs ≡ true
        → settings_of (payload_of pairs) ≡ Ok pairs }
{}

/// What an end announces of itself is received without the setting that has no meaning, alone or
/// with the limits of its dynamic table after it.
pub fn announced_is_received()
    ensures alone { (c : Config) (grease : ℕ) (pairs : List (ℕ × ℕ)) → grease < 0x210842108421083
        → announced c grease ≡ Ok pairs → settings_of (payload_of pairs) ≡ Ok (own_pairs c.settings) }
    ensures with_table { (c : Config) (grease capacity blocked : ℕ) (pairs : List (ℕ × ℕ)) → grease < 0x210842108421083
        → capacity < 2 ^ 62 → blocked < 2 ^ 62 → announced c grease ≡ Ok pairs
        → settings_of (payload_of (pairs ++ table_pairs capacity blocked)) ≡ Ok (own_pairs c.settings ++ table_pairs capacity blocked) }
{}

/// The peer takes from what is received what the end was configured to announce.
pub fn received_is_configured()
    ensures alone { (s : Settings) → peer_settings (own_pairs s) ≡ s }
    ensures with_table { (s : Settings) (capacity blocked : ℕ) → peer_settings (own_pairs s ++ table_pairs capacity blocked) ≡ s }
    ensures table { (s : Settings) (capacity blocked : ℕ)
        → (value_of 1 (own_pairs s ++ table_pairs capacity blocked) ≡ Some capacity)
        × (value_of 7 (own_pairs s ++ table_pairs capacity blocked) ≡ Some blocked) }
{}

/// The ids of settings (RFC 9114, section 7.2.4.1; RFC 9204, section 5; RFC 9220, section 5;
/// RFC 9297, section 2.1.1), those that have a meaning first.
pub fn setting_ids() -> [SettingId; 8]
    ensures { result ≡ known_ids ++ 0xffd277 ∷ [] }
{
    [
        SettingId::QPACK_MAX_TABLE_CAPACITY,
        SettingId::MAX_HEADER_LIST_SIZE,
        SettingId::QPACK_MAX_BLOCKED_STREAMS,
        SettingId::ENABLE_CONNECT_PROTOCOL,
        SettingId::H3_DATAGRAM,
        SettingId::ENABLE_WEBTRANSPORT,
        SettingId::WEBTRANSPORT_MAX_SESSIONS,
        SettingId::H3_SETTING_ENABLE_DATAGRAM_CHROME_SPECIFIC,
    ]
}

/// The types of streams (RFC 9114, section 6.2; RFC 9204, section 4.2): control, push, encoder and
/// decoder streams, and those of WebTransport in both directions and one-way.
pub fn stream_types() -> [StreamType; 6]
    ensures { result ≡ 0 ∷ 1 ∷ 2 ∷ 3 ∷ 0x41 ∷ 0x54 ∷ [] }
{
    [
        StreamType::CONTROL,
        StreamType::PUSH,
        StreamType::ENCODER,
        StreamType::DECODER,
        StreamType::WEBTRANSPORT_BIDI,
        StreamType::WEBTRANSPORT_UNI,
    ]
}

/// The first request stream.
pub fn first_request() -> StreamId
    ensures { result ≡ 0 }
{
    StreamId::FIRST_REQUEST
}

/// The low bit of the ids of the streams that each side opens (RFC 9000, section 2.1).
pub fn sides() -> (u64, u64)
    ensures { result ≡ (0, 1) }
{
    (Side::Client as u64, Side::Server as u64)
}

/// The most bytes of a stream type, and of the payload of eight settings.
pub fn most_bytes() -> (usize, usize)
    ensures { result ≡ (8, 128) }
{
    (
        StreamType::MAX_ENCODED_SIZE,
        frame::Settings::MAX_ENCODED_SIZE,
    )
}

//! The peer's settings, and the table that they allow (RFC 9204, sections 3.2.3 and 4.3.1).
ghost use Rattle.std.specs.Prelude.{◌≡◌, ◌+◌, ◌≤◌, false, None, vec_len, IfOk, OnErr};
ghost use Rattle.std.specs.Vec.{vec_capacity};
ghost use Rattle.h3_connection.specs.KeptGoaways.{keeps_last, kept_found};
ghost use Rattle.h3_connection.specs.PeerReading.{read_peer};
ghost use Rattle.h3_unidirectional.specs.Fronts.{KeepsPart, found_first};
ghost use Rattle.h3_connection.specs.StrictConnection.{kinds_of, settings_refused};
ghost use Rattle.h3_streams.specs.Stopping.{Learns, settings_taken};

use h3_connection::setup::Announced;
use h3_proto::error::Code;
use h3_proto::stream::Side;
use h3_qpack::reserved::{CAPACITY_LEN, put_capacity};
use h3_unidirectional::control::PeerControl;
use h3_unidirectional::encoding::Encoding;
use std::alloc::{AllocError, Global};

/// If the settings came and the endpoint takes them, the table that they allow is used from now on, and its capacity written on `out`.
#[tactic(auto, using(crate::proofs::Allowed::usable_small))]
fn use_settings(
    peer: &PeerControl,
    encoding: &mut Encoding,
    out: &mut Vec<u8>,
    side: Side,
    own: &Announced,
)
    requires empty { encoding.old.encoder.table.inserted ≡ 0 }
    requires room { vec_len out.old + 6 ≤ vec_capacity out.old }
    ensures { Learns encoding.old encoding.new out.old.items out.new.items (settings_taken side own.now peer.now.settings) }
{
    let Some(settings) = peer.settings() else {
        return;
    };
    if own.refuses_settings(side, settings) {
        return;
    }
    let Some(capacity) = encoding.allow(settings) else {
        return;
    };
    put_capacity(capacity, out);
}

/// Reads the peer's control stream by what the endpoint chose, while its settings have not come. As soon as they are read, the table that
/// they allow is used, and its capacity written on `out`. The room for that is taken before, so that no failed allocation comes between.
/// The fault is that of the reading: settings that the endpoint does not take are one. If an allocation fails, the frames were read up to
/// some place.
#[tactic(auto, using(crate::proofs::Allowed::nothing_read))]
pub(crate) fn read_first(
    peer: &mut PeerControl,
    encoding: &mut Encoding,
    out: &mut Vec<u8>,
    alloc: Global,
    side: Side,
    own: &Announced,
) -> Result<Option<Code>, AllocError>
    requires unknown { peer.old.settings ≡ None }
    ensures ok { IfOk result
        (λ fault. kept_found (keeps_last own.now.choices)
        (found_first side own.now peer.old (read_peer (kinds_of own.now) own.now.choices.unfinished_limit side peer.old)) ≡
        (peer.new, fault)) }
    ensures err { OnErr result
        (KeepsPart (kinds_of own.now) (keeps_last own.now.choices) own.now.choices.unfinished_limit side peer.old peer.new) }
    ensures taken { OnErr result (settings_refused side own.now peer.new.settings ≡ false) }
    ensures learns { Learns encoding.old encoding.new out.old.items out.new.items (settings_taken side own.now peer.new.settings) }
{
    // (not reached: before the settings came nothing was inserted)
    if encoding.encoder().inserted() != 0 {
        return Err(AllocError);
    }
    out.reserve(CAPACITY_LEN)?;
    let outcome = peer.read_first(alloc, side, own, own.kinds());
    use_settings(peer, encoding, out, side, own);
    outcome
}

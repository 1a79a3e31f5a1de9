//! Worked rows of PRIORITY_UPDATE (RFC 9218, section 7.2).
ghost use Rattle.std.specs.Prelude.{◌≡◌, [], codes, true, false, Some, None};
ghost use Rattle.h3_connection.specs.Prioritizing.{priority_at, send_priority};
ghost use Rattle.h3_connection.specs.declared.event.Refusal.TheVariants.{Connection, NotClient, NotOpen, NotRequestId};
ghost use Rattle.h3_connection_rows.specs.UpdateRows.{asked, behind_settings, client, counts, of, opening, set, told, updated, used};
ghost use Rattle.h3_connection_rows.specs.UpdateRows.{written};
ghost use Rattle.h3_connection_rows.specs.Worked.{hex};

/// What each frame does, and which priority counts.
pub fn update_rows_compute()
    ensures urgency { counts 100 (codes "800f07000400753d31") 0 ≡ Some (of 1 false) }
    ensures incremental { counts 100 (codes "800f0700020469") 4 ≡ Some (of 3 true) }
    ensures empty { counts 100 (codes "800f07000100") 0 ≡ Some (of 3 false) }
    ensures of_another { counts 100 (codes "800f07000404753d31") 0 ≡ Some (of 3 false) }
    ensures last { counts 100 (codes "800f07000400753d31800f07000400753d32") 0 ≡ Some (of 2 false) }
    ensures dropped { counts 1 (codes "800f07000404753d31800f07000400753d32") 0 ≡ Some (of 3 false) }
    ensures no_id { told 100 (codes "800f070000") ≡ Some (Connection 0x106) }
    ensures half_an_id { told 100 (codes "800f07000140") ≡ Some (Connection 0x106) }
    ensures of_no_request { told 100 (codes "800f07000401753d31") ≡ Some (Connection 0x108) }
    ensures of_a_push { told 100 (codes "800f07010400753d31") ≡ Some (Connection 0x108) }
    ensures no_dictionary { told 100 (codes "800f07000400553d31") ≡ Some (Connection 0x101) }
    ensures unknown { told 0 (codes "800f07000401553d31") ≡ None }
    ensures before_the_field { priority_at (asked updated) 0 ≡ Some (of 5 false) }
    ensures behind_the_field { priority_at (used (asked updated)) 0 ≡ Some (of 5 false) }
    ensures used_before_the_field { priority_at (asked (used updated)) 0 ≡ Some (of 5 false) }
    ensures waits_no_more { (used updated).peer.updates.waiting ≡ [] }
    ensures behind_its_own { priority_at (set updated) 0 ≡ Some (of 2 false) }
    ensures its_own_for_good { priority_at (used (asked (set updated))) 0 ≡ Some (of 2 false) }
    ensures written { behind_settings written ≡ hex (codes "070108800f07000700753d312c2069070104") }
    ensures at_a_server { (send_priority (opening 0 updated) 0 (of 1 true)).0 ≡ Some NotClient }
    ensures of_its_own_stream { (send_priority client 2 (of 1 true)).0 ≡ Some NotRequestId }
    ensures not_open { (send_priority client 4 (of 1 true)).0 ≡ Some NotOpen }
{}

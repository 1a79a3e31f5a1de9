//! Worked rows of unidirectional streams of types that have no meaning here (RFC 9114, section 6.2).
ghost use Rattle.std.specs.Prelude.{◌≡◌, [], ◌∷◌, codes, true, false};
ghost use Rattle.h3_connection.specs.Unidirectional.Role.{Control, Ignored, Other, Session, Untold};
ghost use Rattle.h3_connection.specs.declared.event.Fault.TheVariants.{Stream};
ghost use Rattle.h3_connection.specs.declared.event.Item.TheVariants.{End, Raw};
ghost use Rattle.h3_connection.specs.declared.event.Pull.TheVariants.{Fault, Item, NoMessages, Pending};
ghost use Rattle.h3_connection.specs.declared.event.StreamFault.TheVariants.{Reset};
ghost use Rattle.h3_connection_rows.specs.OtherStreamRows.{behind, came, cut_off, ended, more, pulled, role, waiting};

/// Which streams are delivered, and what is pulled of them.
pub fn other_stream_rows_compute()
    ensures off { role (came false (codes "40996162")) ≡ Ignored }
    ensures nothing_where_off { pulled (came false (codes "40996162")) ≡ NoMessages }
    ensures nothing_waits_where_off { waiting (came false (codes "40996162")) ≡ 0 }
    ensures handed_out { role (came true (codes "40996162")) ≡ Other 0x99 }
    ensures bytes { pulled (came true (codes "40996162")) ≡ Item (Raw (97 ∷ 98 ∷ [])) }
    ensures waits { waiting (came true (codes "40996162")) ≡ 2 }
    ensures pending { pulled (behind (came true (codes "40996162"))) ≡ Pending }
    ensures waits_no_more { waiting (behind (came true (codes "40996162"))) ≡ 0 }
    ensures half_a_type { role (came true (codes "40")) ≡ Untold (0x40 ∷ []) }
    ensures in_two_pieces { role (more (came true (codes "40")) (codes "9961")) ≡ Other 0x99 }
    ensures second_piece { pulled (behind (more (came true (codes "409961")) (codes "62"))) ≡ Item (Raw (98 ∷ [])) }
    ensures its_end { pulled (behind (ended (came true (codes "40996162")))) ≡ Item End }
    ensures its_end_again { pulled (behind (behind (behind (ended (came true (codes "40996162")))))) ≡ Item End }
    ensures its_reset { pulled (cut_off (came true (codes "40996162"))) ≡ Fault (Stream (Reset 7)) }
    ensures its_reset_drops_bytes { waiting (cut_off (came true (codes "40996162"))) ≡ 0 }
    ensures reserved { role (came true (codes "2161")) ≡ Ignored }
    ensures reserved_in_two_bytes { role (came true (codes "404061")) ≡ Ignored }
    ensures of_a_session { role (came true (codes "40540461")) ≡ Session 4 }
    ensures session_waits { waiting (came true (codes "4054046162")) ≡ 2 }
    ensures session_reset_drops_bytes { waiting (cut_off (came true (codes "4054046162"))) ≡ 0 }
    ensures control { role (came true (codes "00")) ≡ Control }
{}

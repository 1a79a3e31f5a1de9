//! Worked rows of what is held of a stream.
ghost use Rattle.std.specs.Prelude.{◌≡◌, [], ◌∷◌, codes};
ghost use Rattle.h3_connection.specs.CallLists.Call.{Deliver, DeliverReset, PullStream, Cancel};
ghost use Rattle.h3_connection.specs.Unread.{unread};
ghost use Rattle.h3_connection_rows.specs.UnreadRows.{held_after, a_head, front_of_a_body, a_waiting_head, front_of_an_unknown_frame};
ghost use Rattle.h3_connection_rows.specs.UnreadRows.{keeps_settings};
ghost use Rattle.h3_connection_rows.specs.Worked.{hex};

/// Of a request stream what was not pulled is held, and of a unidirectional one what was not read.
pub fn unread_rows_compute()
    ensures nothing_came { held_after [] 0 ≡ 0 }
    ensures opened { held_after (Deliver 0 [] ∷ []) 0 ≡ 0 }
    ensures unpulled_head { held_after (Deliver 0 a_head ∷ []) 0 ≡ 9 }
    ensures pulled_head { held_after (Deliver 0 a_head ∷ PullStream 0 ∷ []) 0 ≡ 0 }
    ensures unfinished_head { held_after (Deliver 0 (hex (codes "01bfffffff0000")) ∷ PullStream 0 ∷ []) 0 ≡ 7 }
    ensures unpulled_body { held_after (Deliver 0 a_head ∷ PullStream 0 ∷ Deliver 0 front_of_a_body ∷ []) 0 ≡ 4 }
    ensures pulled_body { held_after (Deliver 0 a_head ∷ PullStream 0 ∷ Deliver 0 front_of_a_body ∷ PullStream 0 ∷ []) 0 ≡ 0 }
    ensures waiting_head { held_after (Deliver 0 a_waiting_head ∷ PullStream 0 ∷ []) 0 ≡ 6 }
    ensures behind_a_waiting_head { held_after (Deliver 0 a_waiting_head ∷ PullStream 0 ∷ Deliver 0 front_of_a_body ∷ PullStream 0 ∷ []) 0
        ≡ 10 }
    ensures other_stream { held_after (Deliver 0 a_waiting_head ∷ PullStream 0 ∷ []) 4 ≡ 0 }
    ensures unknown_frame { held_after (Deliver 0 front_of_an_unknown_frame ∷ PullStream 0 ∷ []) 0 ≡ 0 }
    ensures canceled { held_after (Deliver 0 a_waiting_head ∷ PullStream 0 ∷ Cancel 0 ∷ []) 0 ≡ 0 }
    ensures was_reset { held_after (Deliver 0 a_head ∷ DeliverReset 0 268 ∷ []) 0 ≡ 0 }
    ensures behind_a_cancellation { held_after (Deliver 0 a_head ∷ Cancel 0 ∷ Deliver 0 a_head ∷ []) 0 ≡ 0 }
    ensures control { held_after (Deliver 2 (hex (codes "000405")) ∷ []) 2 ≡ 2 }
    ensures control_read { held_after (Deliver 2 (hex (codes "000400")) ∷ []) 2 ≡ 0 }
    ensures encoder { held_after (Deliver 6 (hex (codes "02c10c2f73")) ∷ []) 6 ≡ 4 }
    ensures decoder_before_the_settings { held_after (Deliver 10 (hex (codes "034041")) ∷ []) 10 ≡ 2 }
    ensures decoder_behind_the_settings { held_after (Deliver 10 (hex (codes "034041")) ∷ Deliver 2 (hex (codes "000400")) ∷ []) 10 ≡ 0 }
    ensures type_in_part { held_after (Deliver 14 (hex (codes "40")) ∷ []) 14 ≡ 1 }
    ensures unknown_type { held_after (Deliver 14 (hex (codes "4021616263")) ∷ []) 14 ≡ 0 }
    ensures session { held_after (Deliver 14 (hex (codes "405400616263")) ∷ PullStream 14 ∷ []) 14 ≡ 3 }
    ensures pulled_session { held_after (Deliver 14 (hex (codes "405400616263")) ∷ PullStream 14 ∷ PullStream 14 ∷ []) 14 ≡ 0 }
    ensures own { held_after (Deliver 2 (hex (codes "000405")) ∷ []) 3 ≡ 0 }
    ensures kept { unread keeps_settings 2 ≡ 2 }
    ensures kept_of_a_request { unread keeps_settings 0 ≡ 3 }
{}

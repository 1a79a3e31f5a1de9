//! Worked rows of ends that wait (RFC 9114, section 4.1).
ghost use Rattle.std.specs.Prelude.{◌≡◌, [], ◌∷◌, true, false};
ghost use Rattle.h3_connection.specs.CallLists.{answers};
ghost use Rattle.h3_connection.specs.CallLists.Call.{Advance, Finish, Reset, TakeEnd};
ghost use Rattle.h3_connection.specs.CallLists.Result.{Done, Refused, Took};
ghost use Rattle.h3_connection.specs.EndsWaiting.{has_to_send};
ghost use Rattle.h3_connection.specs.declared.event.Refusal.TheVariants.{Ended};
ghost use Rattle.h3_connection_rows.specs.EndRows.{head_sent, after_calls};

/// An end waits from `finish` on, is next once no bytes wait ahead of it, and is taken once; a reset leaves none.
pub fn end_rows_compute()
    ensures before_the_end { answers head_sent (TakeEnd 0 ∷ []) ≡ Took false ∷ [] }
    ensures behind_its_bytes { answers head_sent (Finish 0 ∷ TakeEnd 0 ∷ Advance 0 2 ∷ TakeEnd 0 ∷ Advance 0 1 ∷ TakeEnd 0 ∷ []) ≡ Done
        ∷ Took false ∷ Done ∷ Took false ∷ Done ∷ Took true ∷ [] }
    ensures once { answers head_sent (Advance 0 3 ∷ Finish 0 ∷ TakeEnd 0 ∷ TakeEnd 0 ∷ []) ≡ Done ∷ Done ∷ Took true ∷ Took false ∷ [] }
    ensures no_reset_behind_it { answers head_sent (Advance 0 3 ∷ Finish 0 ∷ TakeEnd 0 ∷ Reset 0 ∷ []) ≡ Done ∷ Done ∷ Took true
        ∷ Refused Ended ∷ [] }
    ensures other_streams { answers head_sent (TakeEnd 2 ∷ TakeEnd 3 ∷ TakeEnd 4 ∷ []) ≡ Took false ∷ Took false ∷ Took false ∷ [] }
    ensures bytes { has_to_send (after_calls []) 0 ≡ true }
    ensures no_bytes { has_to_send (after_calls (Advance 0 3 ∷ [])) 0 ≡ false }
    ensures an_end { has_to_send (after_calls (Advance 0 3 ∷ Finish 0 ∷ [])) 0 ≡ true }
    ensures no_end { has_to_send (after_calls (Advance 0 3 ∷ Finish 0 ∷ TakeEnd 0 ∷ [])) 0 ≡ false }
    ensures was_reset { has_to_send (after_calls (Finish 0 ∷ Reset 0 ∷ [])) 0 ≡ false }
    ensures own { has_to_send (after_calls []) 2 ≡ true }
{}

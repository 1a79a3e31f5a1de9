//! Worked rows of which stream sends next (RFC 9218, section 10).
ghost use Rattle.std.specs.Prelude.{◌≡◌, [], ◌∷◌, true, false, Some, None};
ghost use Rattle.h3_connection.specs.ByPriority.{hold, set_priority};
ghost use Rattle.h3_connection.specs.Endpoint.{new_endpoint};
ghost use Rattle.h3_connection.specs.Sending.{advance};
ghost use Rattle.h3_connection.specs.declared.event.Refusal.TheVariants.{NotOpen, NotRequestId};
ghost use Rattle.h3_connection_rows.specs.OrderRows.{five, fresh, held, next_in, turns, urged, urgent, without_0, without_16};

/// The most urgent stream first; then the first that is not incremental and those that are by turns; what is held is skipped; the local
/// streams first of all.
pub fn order_rows_compute()
    ensures urgent { turns 2 urgent ≡ Some 16 ∷ Some 16 ∷ [] }
    ensures by_turns { turns 6 without_16 ≡ Some 0 ∷ Some 8 ∷ Some 12 ∷ Some 0 ∷ Some 8 ∷ Some 12 ∷ [] }
    ensures one_is_over { turns 3 without_0 ≡ Some 4 ∷ Some 8 ∷ Some 12 ∷ [] }
    ensures one_is_held { turns 4 (held without_0 8 true) ≡ Some 4 ∷ Some 12 ∷ Some 4 ∷ Some 12 ∷ [] }
    ensures no_bytes_no_turn { next_in (advance without_16 0 0) ≡ Some 0 }
    ensures lowest { turns 3 five ≡ Some 0 ∷ Some 0 ∷ Some 0 ∷ [] }
    ensures none { next_in fresh ≡ None }
    ensures not_open { (set_priority fresh 20 (record { urgency = 1; incremental = false })).0 ≡ Some NotOpen }
    ensures no_request { (set_priority fresh 2 (record { urgency = 1; incremental = false })).0 ≡ Some NotRequestId }
    ensures no_stream { (hold fresh 3 true).0 ≡ Some NotOpen }
    ensures own_stream { (hold fresh 2 true).0 ≡ None }
{}

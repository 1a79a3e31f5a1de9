//! The law of what is kept: it is read in order. This function does nothing: its contract is the law.
ghost use Rattle.std.specs.Prelude.{◌≡◌, ◌≤◌, ℕ, List, [], ◌∷◌, drop, take, true};
ghost use Rattle.h3_proto.specs.declared.stream.Side.{Side};
ghost use Rattle.h3_connection.specs.declared.arrival.Arrival.{Arrival};
ghost use Rattle.h3_connection.specs.Endpoint.{bytes_waiting};
ghost use Rattle.h3_connection.specs.Keeping.{settles};
ghost use Rattle.h3_connection.specs.OwnIds.{other};
ghost use Rattle.h3_connection.specs.Shown as shown;
ghost use Rattle.h3_world.specs.Ends.{Ends, end_at};
ghost use Rattle.h3_world.specs.Headline.{is_out_of_memory};
ghost use Rattle.h3_world.specs.Setup.{IsMadeSetup, Setup};
ghost use Rattle.h3_world.specs.Streams.{has_outgoing};
ghost use Rattle.h3_world.specs.declared.event.Answer.{Answer};
ghost use Rattle.h3_world.specs.declared.event.Event.{Event};
ghost use Rattle.h3_headline.specs.Contents.{KeepsParts};
ghost use Rattle.h3_memory.specs.Kept.{KeepingWorld, caught_up, is_settled};
ghost use Rattle.h3_memory.specs.Keeping.{StandsKeeping, came_of, text_of};
ghost use Rattle.h3_memory.specs.MemoryStep.{StepWithMemory};
ghost use Rattle.h3_memory.specs.QuietEvents.{is_quiet};
ghost use Rattle.h3_memory.specs.ReadsNext.{ReadsNext};
ghost use Rattle.h3_memory.specs.SoundKeeping.{IsSoundKeeping};

/// Of two endpoints that stand in a world with what they keep, one reads the first of that without a fault, and both stand in a world with
/// the rest (`first`). With nothing kept a side has caught up (`none`), and what waits for it at the other one stands in the other one's
/// texts, after what came (`waits`). A pull's answer is settled if it is so in the world, whatever is kept (`settles`).
pub fn what_is_kept_is_read_in_order()
    ensures first { (setup : Setup) (k : KeepingWorld) (ends : Ends) (side : Side) (a : Arrival) (arrivals : List Arrival)
        → IsMadeSetup setup → StandsKeeping setup k ends → (end_at ends side).kept ≡ a ∷ arrivals → ReadsNext setup k ends side a arrivals }
    ensures none { (setup : Setup) (k : KeepingWorld) (ends : Ends) (side : Side) → StandsKeeping setup k ends
        → (end_at ends side).kept ≡ [] → caught_up setup k side ≡ k.world }
    ensures waits { (setup : Setup) (k : KeepingWorld) (ends : Ends) (side : Side) (id count : ℕ) → StandsKeeping setup k ends
        → (end_at ends side).kept ≡ [] →
        shown.has_outgoing (end_at ends (other side)) id ≡ true → count ≤ shown.waiting (end_at ends (other side)) id →
        (has_outgoing k.world (other side) id ≡ true)
        × (take count (bytes_waiting (end_at ends (other side)) id) ≡ take count
        (drop (came_of k.world (other side) id) (text_of setup k.world (other side) id))) }
    ensures settles { (setup : Setup) (k : KeepingWorld) (ends : Ends) (side : Side) (id : ℕ) → StandsKeeping setup k ends
        → settles (end_at ends side) id ≡ is_settled k.world side id }
{
    h3_world::laws::what_refused_memory_leaves_is_sound();
    h3_headline::laws::what_is_cited_holds();
}

/// No part of a message is sent or pulled if an allocation fails (`lacks`), nor by an event that neither sends nor pulls (`quiet`).
pub fn quiet_events_move_no_part()
    ensures lacks { (setup : Setup) (k new : KeepingWorld) (e : Event) (a : Answer) → IsSoundKeeping setup k → is_out_of_memory a ≡ true
        → StepWithMemory setup k e a new → KeepsParts k.world new.world }
    ensures quiet { (setup : Setup) (k new : KeepingWorld) (e : Event) (a : Answer) → IsSoundKeeping setup k → is_quiet e ≡ true
        → StepWithMemory setup k e a new → KeepsParts k.world new.world }
{
    h3_world::laws::what_refused_memory_leaves_is_sound();
    h3_headline::laws::what_is_cited_holds();
}

//! What holds of which stream sends next. These functions do nothing: their contracts are the laws.
ghost use Rattle.std.specs.Prelude.{◌≡◌, ◌≤◌, ◌<◌, ℕ, List, length, Option};
ghost use Rattle.h3_scheduler.specs.Moments.{turns_among, Moment, WaitsThrough};
ghost use Rattle.h3_scheduler.specs.Next.{AreDefault, ArePlaces, IsLowest, IsMostUrgent};
ghost use Rattle.h3_scheduler.specs.Places.{IsNext, Places};
ghost use Rattle.h3_scheduler.specs.PlaceTurns.{turns_at, PlaceTurn, WaitsAtPlaces};
ghost use Rattle.h3_scheduler.specs.Rows.{RowsHold};
ghost use Rattle.h3_scheduler.specs.Streams.{next_of, Streams};
ghost use Rattle.h3_scheduler.specs.Turns.{turns_in, Turn, Waits};
ghost use Rattle.h3_scheduler.specs.declared.round.Round.{Round};

/// Nobody starves: while a stream waits for its turn, whatever becomes of the streams, and those of its urgency send in their turns, none
/// of these has a third turn. So it is also if streams come again and again.
#[tactic(auto, using(crate::proofs::ThirdTurn::two_at_most))]
pub fn none_has_a_third_turn()
    ensures { (urgency waiting id : ℕ) (rounds : List Round) (turns : List Turn) → urgency < length rounds
        → Waits urgency waiting rounds turns
        → turns_in urgency id turns ≤ 2 }
{}

/// The same of turns of one urgency, over tests that say who takes turns then, whatever happens between them.
#[tactic(auto, using(crate::proofs::ThirdTurn::two_among))]
pub fn none_has_a_third_turn_through_moments()
    ensures { (waiting id : ℕ) (r : Round) (moments : List Moment) → WaitsThrough waiting r moments → turns_among id moments ≤ 2 }
{}

/// The same over places, of streams that send if they are next (`IsNext`, the clause of an endpoint's `next_by_priority`), at any urgency.
/// Between turns all but the round of this urgency may change.
#[tactic(auto, using(crate::specs::PlaceTurnLaws::two_at_places))]
pub fn none_has_a_third_turn_by_next()
    ensures { (urgency waiting id : ℕ) (r : Round) (turns : List PlaceTurn) → WaitsAtPlaces urgency waiting r turns
        → turns_at urgency id turns ≤ 2 }
{}

/// Whose turn it is over places is who sends next of the list of streams whose places these are. So the laws below are those of it, too.
#[tactic(auto, using(crate::proofs::Turning::next_is))]
pub fn the_next_is_that_of_the_list()
    ensures { (places : Places) (streams : Streams) (rounds : List Round) (found : Option ℕ) → ArePlaces places streams
        → IsNext places rounds found
        → found ≡ next_of rounds streams }
{}

/// The stream that sends next has something to send and is not held, and none such is more urgent. If there is one, one sends next.
pub fn the_next_is_most_urgent()
    ensures { (rounds : List Round) (streams : Streams) → IsMostUrgent streams (next_of rounds streams) }
{}

/// If nothing is said of any priority, the stream with the lowest id sends next, of those that have something to send and are not held.
pub fn the_lowest_id_is_next_without_priorities()
    ensures { (rounds : List Round) (streams : Streams) → AreDefault streams → IsLowest streams (next_of rounds streams) }
{}

/// Worked rows.
#[tactic(auto, using(crate::proofs::RowsHold::rows_hold))]
pub fn rows_hold()
    ensures { RowsHold }
{}

//! The parts of the headline, each a law that reads alone. They are laws of every run of a client and a server in a world (`h3_world`), as
//! all runs of two endpoints are. These functions do nothing: their contracts are the laws.
ghost use Rattle.std.specs.Prelude.{◌≡◌, ℕ, List, ◌++◌, map, take, true, false, None, is_none, is_some};
ghost use Rattle.std.specs.List.{AllByRecursion, list_any};
ghost use Rattle.h3_qpack.specs.Instructions.{AreAccepted};
ghost use Rattle.h3_proto.specs.declared.stream.Side.{Side};
ghost use Rattle.h3_connection.specs.Announcing.{section_of};
ghost use Rattle.h3_connection.specs.OwnIds.{other};
ghost use Rattle.h3_connection.specs.declared.event.Pull.{Pull as PullAnswer};
ghost use Rattle.h3_connection.specs.declared.lists.ListPull.{ListPull};
ghost use Rattle.h3_connection.specs.Lists.{pull_of};
ghost use Rattle.h3_world.specs.declared.event.Event.{Event};
ghost use Rattle.h3_world.specs.declared.event.Event.TheVariants.{Pull, PullFields};
ghost use Rattle.h3_world.specs.declared.event.Answer.{Answer};
ghost use Rattle.h3_world.specs.declared.event.Answer.TheVariants.{Done, Listed, Pulled};
ghost use Rattle.h3_world.specs.Came.{decoder_at};
ghost use Rattle.h3_world.specs.Ends.{answers_of_ends, new_ends};
ghost use Rattle.h3_world.specs.Following.{replies_left};
ghost use Rattle.h3_world.specs.Headline.{Happens, IsDelivered, is_connection_fault};
ghost use Rattle.h3_world.specs.Order.{next_part};
ghost use Rattle.h3_world.specs.Pauses.{pause_of};
ghost use Rattle.h3_world.specs.Pulling.{settled};
ghost use Rattle.h3_world.specs.Run.{Run};
ghost use Rattle.h3_world.specs.Sendable.{IsSendable};
ghost use Rattle.h3_world.specs.Setup.{IsMadeSetup, JudgesPlainly, Setup, announced_at};
ghost use Rattle.h3_world.specs.Step.{Step};
ghost use Rattle.h3_world.specs.Streams.{flow};
ghost use Rattle.h3_world.specs.World.{World, empty_world, party};
ghost use Rattle.h3_headline.specs.InOrder.{IsInOrder};
ghost use Rattle.h3_headline.specs.Exactly.{IsAllOf, IsExactly, IsTakenWhole, header_of, reader_at};
ghost use Rattle.h3_headline.specs.Messages.{IsFrontOf, has_finished, has_pulled_end, pulled, sent};
ghost use Rattle.h3_headline.specs.RunCut.{IsCutAt};
ghost use Rattle.h3_headline.specs.TableReading.{HasReadTable};

use crate::laws::{two_endpoints_run_in_a_world, what_is_cited_holds};

/// A run, cut anywhere, is a run of the events before and one of the others, from the world that those lead to.
pub fn runs_can_be_cut()
    ensures { (setup : Setup) (before after : List Event) (answers : List Answer) (w : World)
        → Run (Happens setup) (empty_world setup) (before ++ after) answers w → IsCutAt setup (empty_world setup) before after answers w }
{}

/// No answer of a run tells of a connection fault.
pub fn no_connection_fault()
    ensures { (setup : Setup) (events : List Event) (answers : List Answer) (w : World)
        → Run (Happens setup) (empty_world setup) events answers w → list_any is_connection_fault answers ≡ false }
{}

/// A send that is in order is accepted, on a stream that is open, with a field section within the limit known. It is a header section, a
/// piece of the body, a trailer or the end of a message.
pub fn ordered_sends_are_accepted()
    ensures run { (setup : Setup) (before : List Event) (given : List Answer) (w new : World) (e : Event) (a : Answer)
        → Run (Happens setup) (empty_world setup) before given w → Happens setup w e a new → IsInOrder setup w e → a ≡ Done }
    ensures step { (setup : Setup) (w new : World) (e : Event) (a : Answer) → Step setup w e a new → IsInOrder setup w e → a ≡ Done }
{}

/// With everything delivered, a pull of a stream that was not given up pauses only if no part is left. All that the other side sent on it
/// was pulled before.
pub fn everything_comes_out()
    ensures none_left { (setup : Setup) (before : List Event) (given : List Answer) (w new : World) (side : Side) (id : ℕ) (p : PullAnswer)
        → Run (Happens setup) (empty_world setup) before given w → Happens setup w (Pull side id) (Pulled p) new →
        IsDelivered setup w (other side) id → settled w side id ≡ None → is_none (pause_of p) ≡ false
        → next_part (flow w (other side) id) ≡ None }
    ensures none_listed { (setup : Setup) (before : List Event) (given : List Answer) (w new : World) (side : Side) (id : ℕ) (l : ListPull)
        → Run (Happens setup) (empty_world setup) before given w → Happens setup w (PullFields side id) (Listed l) new →
        IsDelivered setup w (other side) id → settled w side id ≡ None → is_none (pause_of (pull_of l)) ≡ false
        → next_part (flow w (other side) id) ≡ None }
    ensures all { (setup : Setup) (before : List Event) (given : List Answer) (w new : World) (side : Side) (id : ℕ) (p : PullAnswer)
        → AllByRecursion (IsSendable setup) before → Run (Happens setup) (empty_world setup) before given w →
        Happens setup w (Pull side id) (Pulled p) new → IsDelivered setup w (other side) id → settled w side id ≡ None
        → is_none (pause_of p) ≡ false →
        IsAllOf (IsExactly (reader_at setup side)) (pulled side id before given) (sent (other side) id before given) }
{
    what_is_cited_holds();
}

/// What a side pulled from a stream is a front of what the other side sent on it. Each field section comes as its list, as the header that
/// this reads as, or as its exact size if that is above the side's limit. The bytes of the body come in any pieces. Once the end is pulled,
/// that is all, and the other side has finished.
pub fn what_is_pulled_is_what_was_sent()
    ensures front { (setup : Setup) (events : List Event) (answers : List Answer) (w : World) (side : Side) (id : ℕ)
        → AllByRecursion (IsSendable setup) events → Run (Happens setup) (empty_world setup) events answers w →
        IsFrontOf (IsExactly (reader_at setup side)) (pulled side id events answers) (sent (other side) id events answers) }
    ensures end { (setup : Setup) (events : List Event) (answers : List Answer) (w : World) (side : Side) (id : ℕ)
        → AllByRecursion (IsSendable setup) events → Run (Happens setup) (empty_world setup) events answers w →
        has_pulled_end side id events answers ≡ true →
        IsAllOf (IsExactly (reader_at setup side)) (pulled side id events answers) (sent (other side) id events answers)
        × (has_finished (other side) id events answers ≡ true) }
{
    what_is_cited_holds();
}

/// Two runs in which the same was sent on a stream, and its end was pulled, return the same headers, if no section is above the reader's
/// limit: those that were sent. They may have other setups, schedules and deliveries too, and pull lists or headers.
pub fn what_comes_out_rests_on_what_was_sent()
    ensures all { (setup : Setup) (events : List Event) (answers : List Answer) (w : World) (side : Side) (id : ℕ)
        → AllByRecursion (IsSendable setup) events → Run (Happens setup) (empty_world setup) events answers w →
        has_pulled_end side id events answers ≡ true
        → AllByRecursion (IsTakenWhole (section_of (announced_at setup side))) (sent (other side) id events answers) →
        map header_of (pulled side id events answers) ≡ map header_of (sent (other side) id events answers) }
    ensures same { (setup others : Setup) (events more : List Event) (answers given : List Answer) (w v : World) (side reader : Side)
        (id i : ℕ) → AllByRecursion (IsSendable setup) events → AllByRecursion (IsSendable others) more →
        Run (Happens setup) (empty_world setup) events answers w → Run (Happens others) (empty_world others) more given v →
        has_pulled_end side id events answers ≡ true → has_pulled_end reader i more given ≡ true →
        AllByRecursion (IsTakenWhole (section_of (announced_at setup side))) (sent (other side) id events answers)
        → AllByRecursion (IsTakenWhole (section_of (announced_at others reader))) (sent (other reader) i more given) →
        sent (other side) id events answers ≡ sent (other reader) i more given
        → map header_of (pulled side id events answers) ≡ map header_of (pulled reader i more given) }
{
    what_is_cited_holds();
}

/// The table that a side's decoder holds is the table of the other side's encoder after as many insertions as came.
pub fn tables_agree()
    ensures { (setup : Setup) (events : List Event) (answers : List Answer) (w : World) (side : Side) → IsMadeSetup setup
        → AllByRecursion (IsSendable setup) events → Run (Happens setup) (empty_world setup) events answers w → HasReadTable setup w side }
{
    what_is_cited_holds();
}

/// A side's encoder refuses none of the instructions of the other side's decoder that it has not read, however many of them come. Its
/// decoder has refused none of those that came of the other side's encoder.
pub fn no_instruction_is_refused()
    ensures encoder { (setup : Setup) (events : List Event) (answers : List Answer) (w : World) (side : Side) (n : ℕ)
        → AllByRecursion (IsSendable setup) events → Run (Happens setup) (empty_world setup) events answers w →
        AreAccepted (party w side).encoder (take n (replies_left setup w side)) }
    ensures decoder { (setup : Setup) (events : List Event) (answers : List Answer) (w : World) (side : Side) → IsMadeSetup setup
        → AllByRecursion (IsSendable setup) events → Run (Happens setup) (empty_world setup) events answers w →
        is_some (decoder_at setup w side) ≡ true }
{
    what_is_cited_holds();
}

/// The same of two endpoints with the bytes carried between them, by their own answers. Over every schedule of events that may be sent no
/// answer tells of a connection fault. What a side pulled from a stream is a front of what the other side sent on it, and all of that with
/// the end. Neither end asks for strict messages.
pub fn endpoints_hand_out_what_was_sent()
    ensures fault { (setup : Setup) (events : List Event) → IsMadeSetup setup → JudgesPlainly setup
        → AllByRecursion (IsSendable setup) events → list_any is_connection_fault (answers_of_ends (new_ends setup) events) ≡ false }
    ensures front { (setup : Setup) (events : List Event) (side : Side) (id : ℕ) → IsMadeSetup setup → JudgesPlainly setup
        → AllByRecursion (IsSendable setup) events →
        IsFrontOf (IsExactly (reader_at setup side)) (pulled side id events (answers_of_ends (new_ends setup) events))
        (sent (other side) id events (answers_of_ends (new_ends setup) events)) }
    ensures end { (setup : Setup) (events : List Event) (side : Side) (id : ℕ) → IsMadeSetup setup → JudgesPlainly setup
        → AllByRecursion (IsSendable setup) events →
        has_pulled_end side id events (answers_of_ends (new_ends setup) events) ≡ true →
        IsAllOf (IsExactly (reader_at setup side)) (pulled side id events (answers_of_ends (new_ends setup) events))
        (sent (other side) id events (answers_of_ends (new_ends setup) events))
        × (has_finished (other side) id events (answers_of_ends (new_ends setup) events) ≡ true) }
{
    what_is_cited_holds();
    two_endpoints_run_in_a_world();
}

//! Worked schedules, and what the statement says of them: these laws compute. The answers were worked out from the standards. If an
//! allocation fails, they are some that the contracts of the calls allow.

ghost use Rattle.std.specs.Prelude.{◌≡◌, true, false, [], ◌∷◌, length, take, drop};
ghost use Rattle.std.specs.List.{list_any};
ghost use Rattle.h3_proto.specs.declared.stream.Side.TheVariants.{Client, Server};
ghost use Rattle.h3_world.specs.Ends.{answers_of_ends, new_ends};
ghost use Rattle.h3_world.specs.Headline.{is_connection_fault};
ghost use Rattle.h3_world.specs.WorkedHeads.{home, no_tables};
ghost use Rattle.h3_world.specs.WorkedLists.{listed_answers, listed_run, mixed_answers, mixed_run};
ghost use Rattle.h3_world.specs.declared.event.Event.TheVariants as event;
ghost use Rattle.h3_headline.specs.Messages.{IsFrontOf, has_finished, has_pulled_end, pulled, sent};
ghost use Rattle.h3_strict.specs.WorkedStrict.{early_answers, early_run, refused_answers, refused_run, strict_setup, tunnel_answers};
ghost use Rattle.h3_strict.specs.WorkedStrict.{tunnel_run};
ghost use Rattle.h3_faithful.specs.Faithful.{PausesDelivered};
ghost use Rattle.h3_faithful.specs.Reading.{IsReadAs};
ghost use Rattle.h3_faithful.specs.Sends.{begins_late, may_be_unread};
ghost use Rattle.h3_faithful.specs.WorkedFaithful.{asked_answers, asked_run, careful_client, control_answers, control_run, curious_client};
ghost use Rattle.h3_faithful.specs.WorkedFaithful.{curious_server, delivered_answers, delivered_run, early_pulled, early_sent};
ghost use Rattle.h3_faithful.specs.WorkedFaithful.{late_answers, late_run, limited_answers, limited_client, limited_run, listed_sent};
ghost use Rattle.h3_faithful.specs.WorkedFaithful.{mixed_pulled, nexts, reset_answers, reset_run, status_pulled, status_sent};
ghost use Rattle.h3_faithful.specs.WorkedFaithful.{strict_pulled, strict_sent, unasked_answers, unasked_run, websocket};
ghost use Rattle.h3_faithful.specs.WorkedMemory.{again_answers, again_run, again_sent, kept_answers, kept_run, later_answers, later_run};
ghost use Rattle.h3_faithful.specs.WorkedMemory.{verdict_answers, verdict_run};

/// A list that is sent and pulled as a list, with a body, a trailer and the end after it.
pub fn lists_are_handed_out()
    ensures sent { sent Server 0 listed_run listed_answers ≡ listed_sent }
    ensures handed { pulled Client 0 listed_run listed_answers ≡ listed_sent }
    ensures all { IsFrontOf (IsReadAs no_tables Client) (pulled Client 0 listed_run listed_answers)
        (sent Server 0 listed_run listed_answers) }
    ensures ended { has_pulled_end Client 0 listed_run listed_answers ≡ true }
    ensures finished { has_finished Server 0 listed_run listed_answers ≡ true }
{}

/// A list that is pulled as the header that it reads as.
pub fn lists_are_handed_out_as_headers()
    ensures handed { pulled Client 0 mixed_run mixed_answers ≡ mixed_pulled }
    ensures front { IsFrontOf (IsReadAs no_tables Client) (pulled Client 0 mixed_run mixed_answers)
        (sent Server 0 mixed_run mixed_answers) }
{}

/// A strict client is refused a header section, a body and an end that break a rule, though each is next on its stream. What it sends comes
/// out.
pub fn strict_refusals_send_nothing()
    ensures nexts { nexts strict_setup Client 0 refused_run refused_answers ≡ false ∷ true ∷ true ∷ true ∷ true ∷ true ∷ true ∷ false
        ∷ false ∷ false ∷ false ∷ false ∷ [] }
    ensures sent { sent Client 0 refused_run refused_answers ≡ strict_sent }
    ensures handed { pulled Server 0 refused_run refused_answers ≡ strict_pulled }
    ensures ended { has_pulled_end Server 0 refused_run refused_answers ≡ true }
{}

/// A strict client finds a response malformed: what it was handed before is the beginning of what was sent.
pub fn messages_found_malformed_end_in_front()
    ensures sent { sent Server 0 early_run early_answers ≡ early_sent }
    ensures handed { pulled Client 0 early_run early_answers ≡ early_pulled }
    ensures front { IsFrontOf (IsReadAs strict_setup Client) (pulled Client 0 early_run early_answers)
        (sent Server 0 early_run early_answers) }
    ensures faultless { list_any is_connection_fault early_answers ≡ false }
{}

/// Bytes of a control stream open no request stream.
pub fn control_streams_open_no_request()
    ensures answers { answers_of_ends (new_ends no_tables) control_run ≡ control_answers }
    ensures none { nexts no_tables Client 3 control_run control_answers ≡ false ∷ false ∷ false ∷ false ∷ [] }
    ensures next { nexts no_tables Client 0 control_run control_answers ≡ false ∷ false ∷ false ∷ true ∷ [] }
{}

/// After a reset nothing is next on the stream, and the other direction goes on.
pub fn reset_streams_go_on_no_more()
    ensures answers { answers_of_ends (new_ends no_tables) reset_run ≡ reset_answers }
    ensures client { nexts no_tables Client 0 reset_run reset_answers ≡ false ∷ true ∷ false ∷ false ∷ false ∷ false ∷ false ∷ false ∷ [] }
    ensures server { nexts no_tables Server 0 reset_run reset_answers ≡ false ∷ false ∷ false ∷ false ∷ false ∷ true ∷ false ∷ false ∷ [] }
    ensures handed { pulled Client 0 reset_run reset_answers ≡ status_pulled }
{}

/// With nothing left to deliver a pull pauses after all that was sent.
pub fn with_all_delivered_all_comes_out()
    ensures answers { answers_of_ends (new_ends no_tables) delivered_run ≡ delivered_answers }
    ensures pauses { PausesDelivered Client 0 (drop 6 delivered_run) (drop 6 delivered_answers) }
    ensures not_before { PausesDelivered Client 0 (drop 5 delivered_run) (drop 5 delivered_answers) → ⊥ }
    ensures front { IsFrontOf (IsReadAs no_tables Client) (pulled Client 0 (take 6 delivered_run) (take 6 delivered_answers))
        (sent Server 0 (take 6 delivered_run) (take 6 delivered_answers)) }
    ensures all { length (pulled Client 0 (take 6 delivered_run) (take 6 delivered_answers))
        ≡ length (sent Server 0 (take 6 delivered_run) (take 6 delivered_answers)) }
{}

/// Between a strict side and one that is not, a trailer in a tunnel is a fault of the connection. Before it all is as it was sent. (Those
/// are the answers by `worked_tunnel` of h3_strict.)
pub fn trailers_in_tunnels_end_the_connection()
    ensures before { list_any is_connection_fault (take 8 tunnel_answers) ≡ false }
    ensures fault { list_any is_connection_fault tunnel_answers ≡ true }
    ensures handed { pulled Client 0 (take 8 tunnel_run) (take 8 tunnel_answers) ≡ status_pulled }
{}

/// A client that asks for a strict connection begins no request after its server's GOAWAY, on a stream that it opened before either.
pub fn requests_behind_a_goaway_are_late()
    ensures answers { answers_of_ends (new_ends careful_client) late_run ≡ late_answers }
    ensures before { begins_late careful_client (take 1 late_run) (take 1 late_answers) (event.Head Client 0 home) ≡ false }
    ensures late { begins_late careful_client (take 3 late_run) (take 3 late_answers) (event.Head Client 0 home) ≡ true }
{}

/// A list above the limit of its reader, sent before its settings, ends its stream alone.
pub fn lists_that_are_too_long_end_their_stream()
    ensures answers { answers_of_ends (new_ends limited_client) limited_run ≡ limited_answers }
    ensures faultless { list_any is_connection_fault limited_answers ≡ false }
    ensures none { pulled Client 0 limited_run limited_answers ≡ [] }
    ensures other { pulled Client 4 limited_run limited_answers ≡ status_pulled }
{}

/// What is sent again, since an allocation failed, is sent once.
pub fn what_memory_was_refused_for_is_sent_once()
    ensures nexts { nexts no_tables Client 0 again_run again_answers ≡ false ∷ true ∷ false ∷ true ∷ true ∷ true ∷ true ∷ [] }
    ensures sent { sent Client 0 again_run again_answers ≡ again_sent }
    ensures finished { has_finished Client 0 again_run again_answers ≡ true }
{}

/// What is pulled again comes once.
pub fn what_memory_was_refused_for_is_pulled_once()
    ensures handed { pulled Client 0 later_run later_answers ≡ status_pulled }
    ensures sent { sent Server 0 later_run later_answers ≡ status_sent }
{}

/// What is kept, since an allocation failed, comes later.
pub fn what_is_kept_is_handed_out_later()
    ensures handed { pulled Client 0 kept_run kept_answers ≡ status_pulled }
    ensures sent { sent Server 0 kept_run kept_answers ≡ status_sent }
{}

/// Two strict sides with memory refused: a response is found malformed later, and another stream goes on.
pub fn strict_verdicts_wait_for_memory()
    ensures handed { pulled Client 0 verdict_run verdict_answers ≡ early_pulled }
    ensures front { IsFrontOf (IsReadAs strict_setup Client) (pulled Client 0 verdict_run verdict_answers)
        (sent Server 0 verdict_run verdict_answers) }
    ensures other { pulled Client 4 verdict_run verdict_answers ≡ status_pulled }
    ensures faultless { list_any is_connection_fault verdict_answers ≡ false }
{}

/// A server that takes two protocols alone finds another malformed, and the next stream goes on. A client that takes those alone sends no
/// other.
pub fn other_protocols_are_malformed()
    ensures answers { answers_of_ends (new_ends curious_client) asked_run ≡ asked_answers }
    ensures faultless { list_any is_connection_fault asked_answers ≡ false }
    ensures none { pulled Server 0 asked_run asked_answers ≡ [] }
    ensures refused { answers_of_ends (new_ends curious_server) unasked_run ≡ unasked_answers }
    ensures unread { may_be_unread curious_server (event.Head Client 0 websocket) ≡ true }
    ensures read { may_be_unread curious_client (event.Head Client 0 websocket) ≡ false }
{}

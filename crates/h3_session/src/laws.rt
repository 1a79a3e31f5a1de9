//! The laws of the definitions that the contracts of `Endpoint` and of `run` name. Each is a function that does nothing: its contract is
//! the law.
//!
//! - Isolation: what a request stream's calls are answered rests on its own calls and on the insertions read (`each_stream_is_isolated`).
//!   What comes on streams and in frames of unknown types changes nothing else (`unknown_streams_change_nothing_else`,
//!   `unknown_frames_give_nothing`).
//! - Cuts: at which places bytes are cut into deliveries doesn't count (`cut_deliveries_are_answered_alike`,
//!   `cut_pulls_are_answered_alike`, `cut_calls_are_answered_alike`).
//! - Bounds: no section is tried more than twice, and no more streams wait than were announced (`tries_and_waiting_streams_are_bounded`).
//!   Every endpoint that calls made has these bounds, whether allocations fail or not (`endpoints_stay_bounded`,
//!   `lists_leave_endpoints_bounded`).
//! - Well-formed messages: an endpoint that asks for strict messages returns no header section and no trailer whose list breaks a rule
//!   (`strict_endpoints_hand_out_no_broken_list`). It returns no more content than the header section says, and the end only after all of
//!   it (`content_is_as_long_as_was_said`). Of a response to HEAD it returns no content (`a_response_to_head_has_no_content`). What it
//!   sends breaks no rule for a peer that asks for strict messages (`strict_endpoints_send_no_broken_list`, and of lists
//!   `strict_endpoints_send_no_broken_field_list`). What it sends has as much content as its header section says
//!   (`strict_endpoints_send_as_much_content_as_was_said`).
//! - What stays: a connection fault (`a_connection_fault_stays`), and the end of a stream once a pull returned it (`the_end_stays`). If
//!   nothing is kept, calls are the plain ones (`nothing_kept_is_plain`).
//! - Two endpoints: a schedule's answers are those of a run of the world of a connection (`two_endpoints_run_in_a_world`), in which each
//!   endpoint decodes what the other sent (`endpoints_decode_what_was_sent`). The parts of what `run` promises, each by itself:
//!   `no_connection_fault`, `ordered_sends_are_accepted`, `what_is_pulled_is_what_was_sent`, `everything_comes_out`,
//!   `what_comes_out_rests_on_what_was_sent`, `tables_agree`, `no_instruction_is_refused`, `runs_can_be_cut`, and by the answers of two
//!   endpoints alone `endpoints_hand_out_what_was_sent`.
//! - Allocations that may fail: events that were answered by their calls are steps of two endpoints (`calls_are_steps_of_two_endpoints`).
//!   These run in a world in which allocations may fail (`two_endpoints_run_with_memory`), which is the world of a connection if none fails
//!   (`without_memory_answers_a_run_is_one_of_the_world`). What is pulled in such a run is what was sent
//!   (`what_is_pulled_with_memory_refused_is_what_was_sent`), and nothing is lost (`once_memory_is_back_nothing_is_lost`).
//! - Strict sides: each event is answered as without strict messages, or is refused as malformed, or finds a message malformed
//!   (`each_event_steps_plainly`). So whole schedules are answered so (`whole_runs_are_plain`) and run in a world
//!   (`strict_endpoints_run_in_a_world`, `strict_endpoints_hand_out_what_was_sent`, `schedules_that_judge_nothing_find_no_fault`). Between
//!   two strict sides no pull finds one malformed, if the server knows what was asked before it answers
//!   (`strict_endpoints_take_what_they_send`, `two_strict_endpoints_run_in_a_world`).
//! - Limits on what is unfinished: if each takes what is sent to it they change nothing (`limits_that_take_what_is_sent_change_nothing`). A
//!   limit takes it if it is at least four times what its side announces (`limits_above_what_is_announced_take_what_is_sent`). So two such
//!   sides run in a world (`two_limited_endpoints_run_in_a_world`, `two_strict_limited_endpoints_run_in_a_world`). A side without a limit
//!   takes every list (`sides_without_limits_take_all`).
//! - What a schedule within its bounds sends may be sent (`schedules_within_bounds_may_be_sent`).
//! - Lists: a header section and a trailer are sent as the lists of their fields are (`heads_are_sent_as_their_lists`).
//! - Datagrams: what is written in front of a payload reads back as the id of its stream (`datagrams_read_back`).
//! - Shutting down: no request below the last GOAWAY is rejected (`nothing_below_a_goaway_is_rejected`). What is drained stays drained
//!   (`drained_stays`).
//! - Events: `next_event` answers `None` after at most two events, and then all was reported (`events_are_reported_once`).
ghost use Rattle.std.specs.Prelude.{◌≡◌, ℕ, List};
ghost use Rattle.std.specs.List.{list_any};
ghost use Rattle.h3_header.specs.Head.{head_fields};
ghost use Rattle.h3_connection.specs.Endpoint.{EndpointHistory};
ghost use Rattle.h3_connection.specs.Sending.{send_head, send_trailer};
ghost use Rattle.h3_connection.specs.State.{EndpointState, StandsFor};
ghost use Rattle.h3_world.specs.Ends.{Ends};
ghost use Rattle.h3_world.specs.declared.event.Answer.{Answer};
ghost use Rattle.h3_world.specs.declared.event.Event.{Event};
ghost use Rattle.h3_memory.specs.Refused.{EndsRun};
ghost use Rattle.h3_world.specs.Headline.{is_out_of_memory};
ghost use Rattle.h3_world.specs.Setup.{Setup};
ghost use Rattle.h3_session.specs.Acting.{RunsByCalls};
ghost use Rattle.h3_session.specs.Running.{AnswersEach, RunsTo};
ghost use Rattle.h3_connection.specs.declared.event.Refusal.{Refusal};
ghost use Rattle.h3_session.specs.SendingLists.{send_fields, send_trailer_fields};

pub use h3_connection::laws::{
    a_connection_fault_stays, a_response_to_head_has_no_content, content_is_as_long_as_was_said,
    cut_calls_are_answered_alike, cut_deliveries_are_answered_alike, cut_pulls_are_answered_alike,
    drained_stays, each_stream_is_isolated, endpoints_stay_bounded, nothing_kept_is_plain,
    strict_endpoints_hand_out_no_broken_list, strict_endpoints_send_as_much_content_as_was_said,
    strict_endpoints_send_no_broken_list, the_end_stays, tries_and_waiting_streams_are_bounded,
    unknown_frames_give_nothing, unknown_streams_change_nothing_else,
};
use h3_header::Header;
pub use h3_headline::laws::{endpoints_decode_what_was_sent, two_endpoints_run_in_a_world};
pub use h3_headline::parts::{
    endpoints_hand_out_what_was_sent, everything_comes_out, no_connection_fault,
    no_instruction_is_refused, ordered_sends_are_accepted, runs_can_be_cut, tables_agree,
    what_comes_out_rests_on_what_was_sent, what_is_pulled_is_what_was_sent,
};
pub use h3_memory::laws::{
    once_memory_is_back_nothing_is_lost, two_endpoints_run_with_memory,
    what_is_pulled_with_memory_refused_is_what_was_sent,
    without_memory_answers_a_run_is_one_of_the_world,
};
pub use h3_strict::laws::{
    each_event_steps_plainly, schedules_that_judge_nothing_find_no_fault,
    strict_endpoints_hand_out_what_was_sent, strict_endpoints_run_in_a_world, whole_runs_are_plain,
};
pub use h3_strict::limits::{
    limits_above_what_is_announced_take_what_is_sent, limits_that_take_what_is_sent_change_nothing,
    two_limited_endpoints_run_in_a_world, two_strict_limited_endpoints_run_in_a_world,
};
pub use h3_strict::strict::{
    strict_endpoints_take_what_they_send, two_strict_endpoints_run_in_a_world,
};

/// A header section is sent as the list of its fields is, and so is a trailer: `send_head` is `send_fields` of that list, in every history.
pub fn heads_are_sent_as_their_lists(header: &Header)
    ensures head { (e : EndpointHistory) (id : ℕ) → send_fields e id (head_fields header.now) ≡ send_head e id header.now }
    ensures trailer { (e : EndpointHistory) (id : ℕ) → send_trailer_fields e id (head_fields header.now) ≡ send_trailer e id header.now }
{
    h3_header::laws::every_header_reads_back(header);
    h3_header::laws::lists_are_their_value();
}

ghost use Rattle.h3_session.specs.StrictLists.{SendsWellFormedLists, SendsWellFormedTrailerLists};

/// A list that an endpoint with strict messages sends, as a header section or trailer, breaks no rule of well-formed messages (RFC 9114,
/// sections 4.1.2 and 4.2 to 4.5). It breaks none as a peer judges it that asks for strict messages, so long as that peer announced
/// extended CONNECT if its settings that came say so.
pub fn strict_endpoints_send_no_broken_field_list()
    ensures heads { SendsWellFormedLists }
    ensures trailers { SendsWellFormedTrailerLists }
{}

/// Events that were answered by their calls are steps of the two endpoints that were stood for, whether allocations fail or not. What is
/// stored then stands for the endpoints after them (`steps`). There are as many answers as events, and those up to the first that reports
/// out of memory are the answers of two endpoints of the definitions with the bytes carried between them (`each`). If none does, what is
/// stored stands for these (`whole`).
pub fn calls_are_steps_of_two_endpoints()
    ensures steps { (ends : Ends) (events : List Event) (answers : List Answer) (client server : EndpointState)
        → RunsByCalls ends events answers client server →
        (new : Ends) × EndsRun ends events answers new × StandsFor client new.client × StandsFor server new.server }
    ensures each { (ends : Ends) (events : List Event) (answers : List Answer) (client server : EndpointState)
        → RunsByCalls ends events answers client server → AnswersEach ends events answers }
    ensures whole { (ends : Ends) (events : List Event) (answers : List Answer) (client server : EndpointState)
        → RunsByCalls ends events answers client server → list_any is_out_of_memory answers ≡ false →
        RunsTo ends events answers client server }
{}

ghost use Rattle.std.specs.List.{AllByRecursion};
ghost use Rattle.h3_world.specs.Small.{ArePlain, AreSmall};
ghost use Rattle.h3_world.specs.Sendable.{IsSendable, IsSendableBy};
ghost use Rattle.h3_session.specs.Typed.{IsTyped};

/// The events of a schedule within the bound of `run` may be sent: what the laws of two endpoints ask for, of any sides, and of plain ones.
pub fn schedules_within_bounds_may_be_sent()
    ensures any { (events : List Event) → AllByRecursion IsTyped events → AreSmall events → AllByRecursion (IsSendableBy true) events }
    ensures plain { (setup : Setup) (events : List Event) → AllByRecursion IsTyped events → AreSmall events → ArePlain setup events
        → AllByRecursion (IsSendable setup) events }
{}

ghost use Rattle.std.specs.Prelude.{Result};
ghost use Rattle.h3_field.specs.Field.{Field};
ghost use Rattle.h3_connection.specs.Bounds.{StandsBounded};
ghost use Rattle.h3_connection.specs.Calls.{IsSame};
ghost use Rattle.h3_session.specs.SendingLists.{SendsFieldList, SendsTrailerList};

/// A list that is sent, as a header section or as a trailer, leaves an endpoint with its bounds, and so does a call that changes nothing.
/// So each call of an endpoint does, by its contract alone, whether it was answered, refused, or out of memory (`endpoints_stay_bounded`).
pub fn lists_leave_endpoints_bounded()
    ensures fields { (old new : EndpointState) (id : ℕ) (fields : List Field) (result : Result Unit Refusal)
        → SendsFieldList old new id fields result → StandsBounded old → StandsBounded new }
    ensures trailer { (old new : EndpointState) (id : ℕ) (fields : List Field) (result : Result Unit Refusal)
        → SendsTrailerList old new id fields result → StandsBounded old → StandsBounded new }
    ensures same { (old new : EndpointState) → IsSame old new → StandsBounded old → StandsBounded new }
{
    h3_connection::laws::tries_and_waiting_streams_are_bounded();
}

ghost use Rattle.std.specs.Prelude.{false};
ghost use Rattle.h3_connection.specs.Lasts.{last_id};
ghost use Rattle.h3_connection.specs.Shutdown.{is_named, is_rejected};

/// Nothing below the last GOAWAY is rejected (RFC 9114, section 5.2), in every history: so what was announced to be processed is delivered.
pub fn nothing_below_a_goaway_is_rejected()
    ensures { (e : EndpointHistory) (id : ℕ) → is_named (last_id e.own.goaways) id ≡ false → is_rejected e id ≡ false }
{}

ghost use Rattle.std.specs.Prelude.{Ok, ◌^◌, ◌<◌, ◌++◌, length};
ghost use Rattle.h3_session.specs.Datagrams.{datagram_head, read_datagram, TakesDatagrams};
ghost use Rattle.h3_session.specs.declared.endpoint.datagrams.DatagramRead.TheVariants.{For};

/// What an endpoint writes in front of the payload of a datagram is read by its peer as the id of the same stream (RFC 9297, section 2.1),
/// whatever the payload is. Of the peer it is asked that both sides announced datagrams to it, and that the stream is open to receive.
pub fn datagrams_read_back()
    ensures { (sender peer : EndpointHistory) (id : ℕ) (head payload : List ℕ) → id < 2 ^ 62 → datagram_head sender id ≡ Ok head
        → TakesDatagrams peer id
        → read_datagram peer (head ++ payload) ≡ (For id (length head), peer) }
{
    h3_capsule::laws::datagrams_read_back();
}

ghost use Rattle.h3_strict.specs.Limits.{EarlyAreTaken};
ghost use Rattle.h3_strict.specs.Tallies.{JudgesStrictly};

/// A side without a limit on what is unfinished takes each list that comes, whenever it was sent. So of two such sides the laws of limits
/// ask nothing of what is sent before the settings came.
pub fn sides_without_limits_take_all()
    ensures { (setup : Setup) (ends : Ends) (events : List Event) → JudgesStrictly setup → EarlyAreTaken setup ends events }
{}

ghost use Rattle.std.specs.Prelude.{is_some, true, Some, None};
ghost use Rattle.h3_session.specs.Events.{asked_once, next_event, IsAllReported};
ghost use Rattle.h3_session.specs.declared.endpoint.events.ConnectionEvent.TheVariants.{Settings, Goaway};
ghost use Rattle.h3_session.specs.declared.endpoint.events.EventsSeen.{EventsSeen};

/// In one state of the connection `next_event` reports at most two events, and then none, whatever was reported before. If it reports none,
/// all was reported. It reports settings only if they came, and of the GOAWAY frames the id of the last one (RFC 9114, section 5.2).
pub fn events_are_reported_once()
    ensures ends { (e : EndpointHistory) (seen : EventsSeen) → next_event e (asked_once e (asked_once e seen)) ≡ None }
    ensures all { (e : EndpointHistory) (seen : EventsSeen) → next_event e seen ≡ None → IsAllReported e seen }
    ensures settings { (e : EndpointHistory) (seen : EventsSeen) → next_event e seen ≡ Some Settings → is_some e.peer.settings ≡ true }
    ensures goaway { (e : EndpointHistory) (seen : EventsSeen) (id : ℕ) → next_event e seen ≡ Some (Goaway id)
        → last_id e.peer.goaways ≡ Some id }
{}

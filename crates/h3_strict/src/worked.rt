//! Worked schedules of two sides that ask for strict messages, or limit what is unfinished: these laws compute. The answers were worked out
//! from the standards.

ghost use Rattle.std.specs.Prelude.{◌≡◌, false, take, true};
ghost use Rattle.std.specs.List.{list_any};
ghost use Rattle.h3_proto.specs.declared.stream.Side.TheVariants.{Client};
ghost use Rattle.h3_world.specs.Ends.{answers_of_ends, ends_after, new_ends};
ghost use Rattle.h3_world.specs.declared.event.Event.TheVariants as event;
ghost use Rattle.h3_strict.specs.PlainEnds.{answers_without_malformed, before_judged, finds_fault, judges, plain_setup, without_malformed};
ghost use Rattle.h3_strict.specs.WorkedStrict.{early_answers, early_front, early_run, head_request, left_answers, left_run, one_strict};
ghost use Rattle.h3_strict.specs.WorkedStrict.{refused_answers, refused_run, strict_setup, tunnel_answers, tunnel_run};

/// A header section without a path, more content than was said and an end before all of it are refused. What is sent comes out: as without
/// strict messages and these three sends.
pub fn worked_refusals()
    ensures answers { answers_of_ends (new_ends strict_setup) refused_run ≡ refused_answers }
    ensures events { without_malformed refused_run refused_answers ≡ left_run }
    ensures left { answers_without_malformed refused_answers ≡ left_answers }
    ensures plain { answers_of_ends (new_ends (plain_setup strict_setup)) left_run ≡ left_answers }
    ensures none { before_judged (new_ends strict_setup) refused_run ≡ refused_run }
{}

/// A server that answers HEAD with content before it reads the request: the client's second pull finds the response malformed, and the
/// schedule up to there is the front. The request is sent before the settings came.
pub fn worked_judgment()
    ensures answers { answers_of_ends (new_ends strict_setup) early_run ≡ early_answers }
    ensures early { is_early (ends_after (new_ends strict_setup) (take 1 early_run)) (event.Head Client 0 head_request) ≡ true }
    ensures front { before_judged (new_ends strict_setup) early_run ≡ early_front }
{}

/// A strict client's second pull finds a trailer in a tunnel of a server that is not strict, and tells so.
pub fn worked_tunnel()
    ensures answers { answers_of_ends (new_ends one_strict) tunnel_run ≡ tunnel_answers }
    ensures told { list_any (finds_fault false) tunnel_answers ≡ true }
{}

ghost use Rattle.h3_strict.specs.Limits.{LimitsTakeWhatIsSent, is_early};
ghost use Rattle.h3_strict.specs.WorkedLimits.{close_client, inserting_answers, inserting_run, no_room, settings_answers, settings_run};
ghost use Rattle.h3_strict.specs.WorkedLimits.{settled_answers, settled_run, small_server, waiting_answers, waiting_run};

/// A client cancels nineteen requests, and what its decoder says of them comes to a server whose limit takes what is sent (`limits`).
/// Before the client's settings it waits, and may pass the limit (`waits`), and after them it is read (`settled`).
pub fn worked_cancellations()
    ensures limits { LimitsTakeWhatIsSent small_server }
    ensures waits { answers_of_ends (new_ends small_server) waiting_run ≡ waiting_answers }
    ensures settled { answers_of_ends (new_ends small_server) settled_run ≡ settled_answers }
{}

/// A server inserts a field of bytes that are rare ones for a client whose limit is as long as the lists that it announces. The insertion
/// is longer, since every string is written in the Huffman code, and is refused as soon as that is known.
pub fn worked_insertion()
    ensures { answers_of_ends (new_ends close_client) inserting_run ≡ inserting_answers }
{}

/// A server whose limit is 0 takes no frame: the delivery of the client's settings judges them, and is refused.
pub fn worked_settings()
    ensures answers { answers_of_ends (new_ends no_room) settings_run ≡ settings_answers }
    ensures judged { judges (new_ends no_room) (event.Deliver Client 2 24) ≡ true }
{}

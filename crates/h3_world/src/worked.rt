//! The definitions at worked schedules.

ghost use Rattle.std.specs.Prelude.{◌≡◌, ◌∷◌, ◌++◌, []};
ghost use Rattle.h3_proto.specs.declared.stream.Side.TheVariants.{Client, Server};
ghost use Rattle.h3_world.specs.OwnStreams.{settings_bytes};
ghost use Rattle.h3_world.specs.WorkedHeads.{plain, no_tables, of_client, of_server, small_client, answers, written, written_by_encoder};
ghost use Rattle.h3_world.specs.WorkedHeads.{written_by_decoder, greatest_section, authority_literal, path_literal};
ghost use Rattle.h3_world.specs.WorkedResponses.{head_run, head_answers, large_run, large_answers, second_run, second_answers, cut_run};
ghost use Rattle.h3_world.specs.WorkedResponses.{cut_answers, literal_run, literal_answers, refused_run, refused_answers, bytewise_run};
ghost use Rattle.h3_world.specs.WorkedResponses.{bytewise_answers, large_body_run, large_body_answers};
ghost use Rattle.h3_world.specs.WorkedRequests.{home_run, home_answers, three_run, three_answers, waits_run, waits_answers, gives_up_run};
ghost use Rattle.h3_world.specs.WorkedRequests.{gives_up_answers, shown_run, shown_answers, long_run, long_answers};
ghost use Rattle.h3_world.specs.WorkedEnds.{reset_run, reset_answers, goaway_run, goaway_answers, cancel_run, cancel_answers};
ghost use Rattle.h3_world.specs.WorkedTables.{kept_entry_run, kept_entry_answers, dropped_entry_run, dropped_entry_answers};
ghost use Rattle.h3_world.specs.WorkedInterim.{interim_run, interim_answers, large_interim_run, large_interim_answers, interim_order_run};
ghost use Rattle.h3_world.specs.WorkedInterim.{interim_order_answers, released_run, released_answers};
ghost use Rattle.h3_world.specs.WorkedCanceled.{canceled_run, canceled_answers};
ghost use Rattle.h3_world.specs.WorkedLists.{listed_run, listed_answers, mixed_run, mixed_answers, unlisted_run, unlisted_answers};

/// The control stream of a side with defaults and no table.
pub fn worked_settings()
    ensures { settings_bytes (plain greatest_section 0 0) ≡ 0 ∷ 4 ∷ 27 ∷ 6 ∷ 255 ∷ 255 ∷ 255 ∷ 255 ∷ 255 ∷ 255 ∷ 255 ∷ 255 ∷ 8 ∷ 0 ∷ 171
        ∷ 96 ∷ 55 ∷ 66 ∷ 0 ∷ 51 ∷ 0 ∷ 171 ∷ 96 ∷ 55 ∷ 67 ∷ 0 ∷ 1 ∷ 0 ∷ 7 ∷ 0 ∷ [] }
{}

/// A response of one header section.
pub fn worked_head()
    ensures { answers no_tables head_run ≡ head_answers }
{}

/// A header section that the client does not take.
pub fn worked_large()
    ensures { answers (small_client 41) large_run ≡ large_answers }
{}

/// A header section with a second field.
pub fn worked_second()
    ensures { answers no_tables second_run ≡ second_answers }
{}

/// A header section that comes in two pieces.
pub fn worked_cut()
    ensures { answers no_tables cut_run ≡ cut_answers }
{}

/// A field that is no static entry.
pub fn worked_literal()
    ensures answers { answers no_tables literal_run ≡ literal_answers }
    ensures bytes { written no_tables literal_run Server 0 ≡ 1 ∷ 9 ∷ 0 ∷ 0 ∷ 217 ∷ 43 ∷ 242 ∷ 180 ∷ 127 ∷ 129 ∷ 23 ∷ [] }
{}

/// Header sections that are refused.
pub fn worked_refused()
    ensures { answers no_tables refused_run ≡ refused_answers }
{}

/// A body and the end, byte by byte.
pub fn worked_bytewise()
    ensures answers { answers (small_client 42) bytewise_run ≡ bytewise_answers }
    ensures bytes { written (small_client 42) bytewise_run Server 0 ≡ 1 ∷ 3 ∷ 0 ∷ 0 ∷ 217 ∷ 0 ∷ 2 ∷ 104 ∷ 105 ∷ [] }
{}

/// A body after a header section that is too large.
pub fn worked_large_body()
    ensures { answers (small_client 41) large_body_run ≡ large_body_answers }
{}

/// A request without a table.
pub fn worked_home()
    ensures answers { answers no_tables home_run ≡ home_answers }
    ensures bytes { written no_tables home_run Client 0 ≡ (1 ∷ 19 ∷ 0 ∷ 0 ∷ 209 ∷ 215 ∷ 80 ∷ []) ++ authority_literal ++ (193 ∷ []) }
{}

/// Requests with a table of which nothing is read back.
pub fn worked_three()
    ensures answers { answers (of_server 220 2) three_run ≡ three_answers }
    ensures encoder { written_by_encoder (of_server 220 2) three_run Client ≡ (2 ∷ 63 ∷ 189 ∷ 1 ∷ 192 ∷ []) ++ authority_literal ++
        (193 ∷ []) ++ path_literal }
    ensures first { written (of_server 220 2) three_run Client 0 ≡ 1 ∷ 6 ∷ 3 ∷ 129 ∷ 209 ∷ 215 ∷ 16 ∷ 17 ∷ [] }
    ensures second { written (of_server 220 2) three_run Client 4 ≡ 1 ∷ 6 ∷ 3 ∷ 0 ∷ 209 ∷ 215 ∷ 129 ∷ 128 ∷ [] }
    ensures third { written (of_server 220 2) three_run Client 8 ≡ (1 ∷ 29 ∷ 0 ∷ 0 ∷ 209 ∷ 215 ∷ 80 ∷ []) ++ authority_literal ++ (81 ∷ [])
        ++ path_literal }
{}

/// A header section that waits for its insertions.
pub fn worked_waits()
    ensures answers { answers (of_server 220 2) waits_run ≡ waits_answers }
    ensures decoder { written_by_decoder (of_server 220 2) waits_run Server ≡ 3 ∷ 2 ∷ 132 ∷ [] }
{}

/// A header section that waits and is given up.
pub fn worked_gives_up()
    ensures answers { answers (of_server 220 2) gives_up_run ≡ gives_up_answers }
    ensures decoder { written_by_decoder (of_server 220 2) gives_up_run Server ≡ 3 ∷ 68 ∷ [] }
{}

/// A request with a table, and what both sides show.
pub fn worked_shown()
    ensures { answers (of_server 220 2) shown_run ≡ shown_answers }
{}

/// Bodies, a trailer and refusals, with a header section that waits.
pub fn worked_long()
    ensures { answers (of_server 220 2) long_run ≡ long_answers }
{}

/// A stream that is reset.
pub fn worked_reset()
    ensures answers { answers no_tables reset_run ≡ reset_answers }
    ensures decoder { written_by_decoder no_tables reset_run Server ≡ 3 ∷ 64 ∷ [] }
{}

/// Announcements of a server that goes away.
pub fn worked_goaway()
    ensures { answers no_tables goaway_run ≡ goaway_answers }
{}

/// Cancellations that are refused.
pub fn worked_cancel()
    ensures { answers no_tables cancel_run ≡ cancel_answers }
{}

/// An entry that is not known to be received stays.
pub fn worked_kept_entry()
    ensures answers { answers (of_client 64 10) kept_entry_run ≡ kept_entry_answers }
    ensures encoder { written_by_encoder (of_client 64 10) kept_entry_run Server ≡ 2 ∷ 63 ∷ 33 ∷ 99 ∷ 242 ∷ 176 ∷ 255 ∷ 129 ∷ 15 ∷ [] }
    ensures first { written (of_client 64 10) kept_entry_run Server 0 ≡ 1 ∷ 4 ∷ 2 ∷ 128 ∷ 217 ∷ 16 ∷ [] }
    ensures second { written (of_client 64 10) kept_entry_run Server 4 ≡ 1 ∷ 9 ∷ 0 ∷ 0 ∷ 217 ∷ 43 ∷ 242 ∷ 180 ∷ 127 ∷ 129 ∷ 23 ∷ [] }
{}

/// An entry that is known and not named gives way.
pub fn worked_dropped_entry()
    ensures answers { answers (of_client 64 10) dropped_entry_run ≡ dropped_entry_answers }
    ensures decoder { written_by_decoder (of_client 64 10) dropped_entry_run Client ≡ 3 ∷ 1 ∷ 128 ∷ [] }
    ensures encoder { written_by_encoder (of_client 64 10) dropped_entry_run Server ≡ (2 ∷ 63 ∷ 33 ∷ 99 ∷ 242 ∷ 176 ∷ 255 ∷ 129 ∷ 15 ∷ [])
        ++ (99 ∷ 242 ∷ 180 ∷ 127 ∷ 129 ∷ 23 ∷ []) }
    ensures second { written (of_client 64 10) dropped_entry_run Server 4 ≡ 1 ∷ 4 ∷ 3 ∷ 128 ∷ 217 ∷ 16 ∷ [] }
{}

/// The header section of an interim response before the final one.
pub fn worked_interim()
    ensures answers { answers no_tables interim_run ≡ interim_answers }
    ensures bytes { written no_tables interim_run Server 0 ≡ 1 ∷ 3 ∷ 0 ∷ 0 ∷ 216 ∷ 1 ∷ 3 ∷ 0 ∷ 0 ∷ 217 ∷ [] }
{}

/// Both header sections are larger than the client takes.
pub fn worked_large_interim()
    ensures { answers (small_client 41) large_interim_run ≡ large_interim_answers }
{}

/// The places at which an interim response may not come, and what may not follow it.
pub fn worked_interim_order()
    ensures { answers no_tables interim_order_run ≡ interim_order_answers }
{}

/// Three header sections that name one entry, and a cancellation that releases all of them.
pub fn worked_released()
    ensures answers { answers (of_client 64 10) released_run ≡ released_answers }
    ensures first { written (of_client 64 10) released_run Server 0 ≡ 1 ∷ 4 ∷ 2 ∷ 128 ∷ 216 ∷ 16 ∷ 1 ∷ 4 ∷ 2 ∷ 0 ∷ 216 ∷ 128 ∷ 1 ∷ 4 ∷ 2 ∷ 0
        ∷ 217 ∷ 128 ∷ [] }
    ensures decoder { written_by_decoder (of_client 64 10) released_run Client ≡ 3 ∷ 1 ∷ 64 ∷ [] }
    ensures encoder { written_by_encoder (of_client 64 10) released_run Server ≡ (2 ∷ 63 ∷ 33 ∷ 99 ∷ 242 ∷ 176 ∷ 255 ∷ 129 ∷ 15 ∷ []) ++
        (99 ∷ 242 ∷ 180 ∷ 127 ∷ 129 ∷ 23 ∷ []) }
    ensures second { written (of_client 64 10) released_run Server 4 ≡ 1 ∷ 4 ∷ 3 ∷ 128 ∷ 217 ∷ 16 ∷ [] }
{}

/// A canceled stream names no entry, and another one does.
pub fn worked_canceled()
    ensures answers { answers (of_client 64 10) canceled_run ≡ canceled_answers }
    ensures first { written (of_client 64 10) canceled_run Server 0 ≡ 1 ∷ 9 ∷ 0 ∷ 0 ∷ 217 ∷ 43 ∷ 242 ∷ 176 ∷ 255 ∷ 129 ∷ 15 ∷ [] }
    ensures second { written (of_client 64 10) canceled_run Server 4 ≡ 1 ∷ 4 ∷ 2 ∷ 128 ∷ 217 ∷ 16 ∷ [] }
    ensures third { written (of_client 64 10) canceled_run Server 8 ≡ 1 ∷ 4 ∷ 2 ∷ 0 ∷ 217 ∷ 128 ∷ [] }
    ensures encoder { written_by_encoder (of_client 64 10) canceled_run Server ≡ 2 ∷ 63 ∷ 33 ∷ 99 ∷ 242 ∷ 176 ∷ 255 ∷ 129 ∷ 15 ∷ [] }
    ensures decoder { written_by_decoder (of_client 64 10) canceled_run Client ≡ 3 ∷ 64 ∷ 1 ∷ 136 ∷ [] }
{}

/// A list that is pulled as a list.
pub fn worked_listed()
    ensures { answers no_tables listed_run ≡ listed_answers }
{}

/// A list that is pulled as a header, and a header that is pulled as its list.
pub fn worked_mixed()
    ensures answers { answers no_tables mixed_run ≡ mixed_answers }
    ensures bytes { written no_tables mixed_run Server 0 ≡ 1 ∷ 15 ∷ 0 ∷ 0 ∷ 217 ∷ 41 ∷ 143 ∷ 129 ∷ 15 ∷ 57 ∷ 31 ∷ 129 ∷ 23 ∷ 41 ∷ 143 ∷ 129
        ∷ 103 ∷ [] }
{}

/// Lists that are refused.
pub fn worked_unlisted()
    ensures { answers no_tables unlisted_run ≡ unlisted_answers }
{}

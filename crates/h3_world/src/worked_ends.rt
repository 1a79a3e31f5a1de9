//! The worked schedules at two endpoints with the bytes carried between them: the same answers.

ghost use Rattle.std.specs.Prelude.{◌≡◌};
ghost use Rattle.h3_world.specs.Ends.{new_ends, answers_of_ends};
ghost use Rattle.h3_world.specs.WorkedHeads.{no_tables, of_client, of_server, small_client};
ghost use Rattle.h3_world.specs.WorkedResponses.{head_run, head_answers, large_run, large_answers, second_run, second_answers, cut_run};
ghost use Rattle.h3_world.specs.WorkedResponses.{cut_answers, literal_run, literal_answers, refused_run, refused_answers, bytewise_run};
ghost use Rattle.h3_world.specs.WorkedResponses.{bytewise_answers, large_body_run, large_body_answers};
ghost use Rattle.h3_world.specs.WorkedRequests.{home_run, home_answers, three_run, three_answers, waits_run, waits_answers, gives_up_run};
ghost use Rattle.h3_world.specs.WorkedRequests.{gives_up_answers, shown_run, shown_answers, long_run, long_answers};
ghost use Rattle.h3_world.specs.WorkedEnds.{reset_run, reset_answers, goaway_run, goaway_answers, cancel_run, cancel_answers};
ghost use Rattle.h3_world.specs.WorkedTables.{kept_entry_run, kept_entry_answers, dropped_entry_run, dropped_entry_answers};
ghost use Rattle.h3_world.specs.WorkedInterim.{interim_run, interim_answers, large_interim_run, large_interim_answers, interim_order_run};
ghost use Rattle.h3_world.specs.WorkedInterim.{interim_order_answers, released_run, released_answers};
ghost use Rattle.h3_world.specs.WorkedCanceled.{canceled_run, canceled_answers};
ghost use Rattle.h3_world.specs.WorkedLists.{listed_run, listed_answers, mixed_run, mixed_answers, unlisted_run, unlisted_answers};

/// Two endpoints answer each worked schedule as it was worked out.
pub fn ends_answer_as_worked()
    ensures head { answers_of_ends (new_ends no_tables) head_run ≡ head_answers }
    ensures large { answers_of_ends (new_ends (small_client 41)) large_run ≡ large_answers }
    ensures second { answers_of_ends (new_ends no_tables) second_run ≡ second_answers }
    ensures cut { answers_of_ends (new_ends no_tables) cut_run ≡ cut_answers }
    ensures literal { answers_of_ends (new_ends no_tables) literal_run ≡ literal_answers }
    ensures refused { answers_of_ends (new_ends no_tables) refused_run ≡ refused_answers }
    ensures bytewise { answers_of_ends (new_ends (small_client 42)) bytewise_run ≡ bytewise_answers }
    ensures large_body { answers_of_ends (new_ends (small_client 41)) large_body_run ≡ large_body_answers }
    ensures home { answers_of_ends (new_ends no_tables) home_run ≡ home_answers }
    ensures three { answers_of_ends (new_ends (of_server 220 2)) three_run ≡ three_answers }
    ensures waits { answers_of_ends (new_ends (of_server 220 2)) waits_run ≡ waits_answers }
    ensures gives_up { answers_of_ends (new_ends (of_server 220 2)) gives_up_run ≡ gives_up_answers }
    ensures shown { answers_of_ends (new_ends (of_server 220 2)) shown_run ≡ shown_answers }
    ensures long { answers_of_ends (new_ends (of_server 220 2)) long_run ≡ long_answers }
    ensures reset { answers_of_ends (new_ends no_tables) reset_run ≡ reset_answers }
    ensures goaway { answers_of_ends (new_ends no_tables) goaway_run ≡ goaway_answers }
    ensures cancel { answers_of_ends (new_ends no_tables) cancel_run ≡ cancel_answers }
    ensures kept_entry { answers_of_ends (new_ends (of_client 64 10)) kept_entry_run ≡ kept_entry_answers }
    ensures dropped_entry { answers_of_ends (new_ends (of_client 64 10)) dropped_entry_run ≡ dropped_entry_answers }
    ensures interim { answers_of_ends (new_ends no_tables) interim_run ≡ interim_answers }
    ensures large_interim { answers_of_ends (new_ends (small_client 41)) large_interim_run ≡ large_interim_answers }
    ensures interim_order { answers_of_ends (new_ends no_tables) interim_order_run ≡ interim_order_answers }
    ensures released { answers_of_ends (new_ends (of_client 64 10)) released_run ≡ released_answers }
    ensures canceled { answers_of_ends (new_ends (of_client 64 10)) canceled_run ≡ canceled_answers }
    ensures listed { answers_of_ends (new_ends no_tables) listed_run ≡ listed_answers }
    ensures mixed { answers_of_ends (new_ends no_tables) mixed_run ≡ mixed_answers }
    ensures unlisted { answers_of_ends (new_ends no_tables) unlisted_run ≡ unlisted_answers }
{}

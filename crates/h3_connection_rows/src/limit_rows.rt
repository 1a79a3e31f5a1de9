//! Worked rows of instructions of the peer's encoder and decoder, and of frames on request streams, that are longer than a limit.

ghost use Rattle.std.specs.Prelude.{◌≡◌};
ghost use Rattle.h3_connection.specs.CallLists.{answers};
ghost use Rattle.h3_connection_rows.specs.Worked.{as_lists};
ghost use Rattle.h3_connection_rows.specs.LimitRows.{string_above_the_limit_endpoint, string_above_the_limit};
ghost use Rattle.h3_connection_rows.specs.LimitRows.{string_above_the_limit_answers, string_behind_an_insertion_endpoint};
ghost use Rattle.h3_connection_rows.specs.LimitRows.{string_behind_an_insertion, string_behind_an_insertion_answers};
ghost use Rattle.h3_connection_rows.specs.LimitRows.{instruction_at_the_limit_endpoint, instruction_at_the_limit};
ghost use Rattle.h3_connection_rows.specs.LimitRows.{instruction_at_the_limit_answers, instruction_one_above_the_limit_endpoint};
ghost use Rattle.h3_connection_rows.specs.LimitRows.{instruction_one_above_the_limit, instruction_one_above_the_limit_answers};
ghost use Rattle.h3_connection_rows.specs.LimitRows.{name_above_the_limit_endpoint, name_above_the_limit, name_above_the_limit_answers};
ghost use Rattle.h3_connection_rows.specs.LimitRows.{name_that_leaves_no_room_endpoint, name_that_leaves_no_room};
ghost use Rattle.h3_connection_rows.specs.LimitRows.{name_that_leaves_no_room_answers, integer_past_the_limit_endpoint};
ghost use Rattle.h3_connection_rows.specs.LimitRows.{integer_past_the_limit, integer_past_the_limit_answers, integer_at_the_limit_endpoint};
ghost use Rattle.h3_connection_rows.specs.LimitRows.{integer_at_the_limit, integer_at_the_limit_answers};
ghost use Rattle.h3_connection_rows.specs.LimitRows.{bad_instruction_within_the_limit_endpoint, bad_instruction_within_the_limit};
ghost use Rattle.h3_connection_rows.specs.LimitRows.{bad_instruction_within_the_limit_answers, cancellation_past_the_limit_endpoint};
ghost use Rattle.h3_connection_rows.specs.LimitRows.{cancellation_past_the_limit, cancellation_past_the_limit_answers};
ghost use Rattle.h3_connection_rows.specs.LimitRows.{decoder_stream_before_the_settings_endpoint, decoder_stream_before_the_settings};
ghost use Rattle.h3_connection_rows.specs.LimitRows.{decoder_stream_before_the_settings_answers, decoder_stream_that_waits_endpoint};
ghost use Rattle.h3_connection_rows.specs.LimitRows.{decoder_stream_that_waits, decoder_stream_that_waits_answers};
ghost use Rattle.h3_connection_rows.specs.LimitRows.{cancellation_before_the_settings_endpoint, cancellation_before_the_settings};
ghost use Rattle.h3_connection_rows.specs.LimitRows.{cancellation_before_the_settings_answers, section_above_the_limit_endpoint};
ghost use Rattle.h3_connection_rows.specs.LimitRows.{section_above_the_limit, section_above_the_limit_answers};
ghost use Rattle.h3_connection_rows.specs.LimitRows.{section_at_the_limit_endpoint, section_at_the_limit, section_at_the_limit_answers};
ghost use Rattle.h3_connection_rows.specs.LimitRows.{settings_on_a_request_endpoint, settings_on_a_request, settings_on_a_request_answers};

/// Instructions and frames that are longer than the limit are found so, and those within it are read. A field section that is too long ends
/// its message alone.
pub fn limit_rows_compute()
    ensures string_above_the_limit { as_lists (answers string_above_the_limit_endpoint string_above_the_limit)
        ≡ string_above_the_limit_answers }
    ensures string_behind_an_insertion { as_lists (answers string_behind_an_insertion_endpoint string_behind_an_insertion)
        ≡ string_behind_an_insertion_answers }
    ensures instruction_at_the_limit { as_lists (answers instruction_at_the_limit_endpoint instruction_at_the_limit)
        ≡ instruction_at_the_limit_answers }
    ensures instruction_one_above_the_limit { as_lists (answers instruction_one_above_the_limit_endpoint instruction_one_above_the_limit)
        ≡ instruction_one_above_the_limit_answers }
    ensures name_above_the_limit { as_lists (answers name_above_the_limit_endpoint name_above_the_limit) ≡ name_above_the_limit_answers }
    ensures name_that_leaves_no_room { as_lists (answers name_that_leaves_no_room_endpoint name_that_leaves_no_room)
        ≡ name_that_leaves_no_room_answers }
    ensures integer_past_the_limit { as_lists (answers integer_past_the_limit_endpoint integer_past_the_limit)
        ≡ integer_past_the_limit_answers }
    ensures integer_at_the_limit { as_lists (answers integer_at_the_limit_endpoint integer_at_the_limit) ≡ integer_at_the_limit_answers }
    ensures bad_instruction_within_the_limit { as_lists (answers bad_instruction_within_the_limit_endpoint bad_instruction_within_the_limit)
        ≡ bad_instruction_within_the_limit_answers }
    ensures cancellation_past_the_limit { as_lists (answers cancellation_past_the_limit_endpoint cancellation_past_the_limit)
        ≡ cancellation_past_the_limit_answers }
    ensures decoder_stream_before_the_settings { as_lists
        (answers decoder_stream_before_the_settings_endpoint decoder_stream_before_the_settings)
        ≡ decoder_stream_before_the_settings_answers }
    ensures decoder_stream_that_waits { as_lists (answers decoder_stream_that_waits_endpoint decoder_stream_that_waits)
        ≡ decoder_stream_that_waits_answers }
    ensures cancellation_before_the_settings { as_lists (answers cancellation_before_the_settings_endpoint cancellation_before_the_settings)
        ≡ cancellation_before_the_settings_answers }
    ensures section_above_the_limit { as_lists (answers section_above_the_limit_endpoint section_above_the_limit)
        ≡ section_above_the_limit_answers }
    ensures section_at_the_limit { as_lists (answers section_at_the_limit_endpoint section_at_the_limit) ≡ section_at_the_limit_answers }
    ensures settings_on_a_request { as_lists (answers settings_on_a_request_endpoint settings_on_a_request)
        ≡ settings_on_a_request_answers }
{}

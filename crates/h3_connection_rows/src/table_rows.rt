//! Worked rows of dynamic tables in use.

ghost use Rattle.std.specs.Prelude.{◌≡◌, take};
ghost use Rattle.h3_connection.specs.CallLists.{answers, endpoint_after};
ghost use Rattle.h3_connection.specs.Delivering.{incoming_at};
ghost use Rattle.h3_connection_rows.specs.Worked.{as_lists};
ghost use Rattle.h3_connection_rows.specs.TableRows.{settings_then_table_in_use_endpoint, settings_then_table_in_use};
ghost use Rattle.h3_connection_rows.specs.TableRows.{settings_then_table_in_use_answers, canceled_without_an_increment_endpoint};
ghost use Rattle.h3_connection_rows.specs.TableRows.{canceled_without_an_increment, canceled_without_an_increment_answers};
ghost use Rattle.h3_connection_rows.specs.TableRows.{increment_and_acknowledgment_read_endpoint, increment_and_acknowledgment_read};
ghost use Rattle.h3_connection_rows.specs.TableRows.{increment_and_acknowledgment_read_answers, head_waits_for_insertions_endpoint};
ghost use Rattle.h3_connection_rows.specs.TableRows.{head_waits_for_insertions, head_waits_for_insertions_answers};
ghost use Rattle.h3_connection_rows.specs.TableRows.{canceled_while_it_waits_endpoint, canceled_while_it_waits};
ghost use Rattle.h3_connection_rows.specs.TableRows.{canceled_while_it_waits_answers, no_stream_may_wait_endpoint, no_stream_may_wait};
ghost use Rattle.h3_connection_rows.specs.TableRows.{no_stream_may_wait_answers, one_stream_too_many_waits_endpoint};
ghost use Rattle.h3_connection_rows.specs.TableRows.{one_stream_too_many_waits, one_stream_too_many_waits_answers};
ghost use Rattle.h3_connection_rows.specs.TableRows.{section_missing_at_its_second_try_endpoint, section_missing_at_its_second_try};
ghost use Rattle.h3_connection_rows.specs.TableRows.{section_missing_at_its_second_try_answers, acknowledged_and_then_canceled_endpoint};
ghost use Rattle.h3_connection_rows.specs.TableRows.{acknowledged_and_then_canceled, acknowledged_and_then_canceled_answers};
ghost use Rattle.h3_connection_rows.specs.TableRows.{canceled_stream_makes_room_endpoint, canceled_stream_makes_room};
ghost use Rattle.h3_connection_rows.specs.TableRows.{canceled_stream_makes_room_answers, waits_for_all_insertions_endpoint};
ghost use Rattle.h3_connection_rows.specs.TableRows.{waits_for_all_insertions, waits_for_all_insertions_answers};
ghost use Rattle.h3_connection_rows.specs.TableRows.{settings_in_pieces_endpoint, settings_in_pieces, settings_in_pieces_answers};
ghost use Rattle.h3_connection_rows.specs.TableRows.{decoder_bytes_before_settings_endpoint, decoder_bytes_before_settings};
ghost use Rattle.h3_connection_rows.specs.TableRows.{decoder_bytes_before_settings_answers, interim_heads_in_the_table_endpoint};
ghost use Rattle.h3_connection_rows.specs.TableRows.{interim_heads_in_the_table, interim_heads_in_the_table_answers};
ghost use Rattle.h3_connection_rows.specs.TableRows.{canceled_stream_without_the_table_endpoint, canceled_stream_without_the_table};
ghost use Rattle.h3_connection_rows.specs.TableRows.{canceled_stream_without_the_table_answers};
ghost use Rattle.h3_connection_rows.specs.TableRows.{cancellation_releases_all_sections_endpoint, cancellation_releases_all_sections};
ghost use Rattle.h3_connection_rows.specs.TableRows.{cancellation_releases_all_sections_answers};

/// Dynamic tables are used so.
pub fn table_rows_compute()
    ensures settings_then_table_in_use { as_lists (answers settings_then_table_in_use_endpoint settings_then_table_in_use)
        ≡ settings_then_table_in_use_answers }
    ensures canceled_without_an_increment { as_lists (answers canceled_without_an_increment_endpoint canceled_without_an_increment)
        ≡ canceled_without_an_increment_answers }
    ensures increment_and_acknowledgment_read { as_lists
        (answers increment_and_acknowledgment_read_endpoint increment_and_acknowledgment_read) ≡ increment_and_acknowledgment_read_answers }
    ensures head_waits_for_insertions { as_lists (answers head_waits_for_insertions_endpoint head_waits_for_insertions)
        ≡ head_waits_for_insertions_answers }
    ensures canceled_while_it_waits { as_lists (answers canceled_while_it_waits_endpoint canceled_while_it_waits)
        ≡ canceled_while_it_waits_answers }
    ensures no_stream_may_wait { as_lists (answers no_stream_may_wait_endpoint no_stream_may_wait) ≡ no_stream_may_wait_answers }
    ensures one_stream_too_many_waits { as_lists (answers one_stream_too_many_waits_endpoint one_stream_too_many_waits)
        ≡ one_stream_too_many_waits_answers }
    ensures section_missing_at_its_second_try { as_lists
        (answers section_missing_at_its_second_try_endpoint section_missing_at_its_second_try) ≡ section_missing_at_its_second_try_answers }
    ensures acknowledged_and_then_canceled { as_lists (answers acknowledged_and_then_canceled_endpoint acknowledged_and_then_canceled)
        ≡ acknowledged_and_then_canceled_answers }
    ensures canceled_stream_makes_room { as_lists (answers canceled_stream_makes_room_endpoint canceled_stream_makes_room)
        ≡ canceled_stream_makes_room_answers }
    ensures waits_for_all_insertions { as_lists (answers waits_for_all_insertions_endpoint waits_for_all_insertions)
        ≡ waits_for_all_insertions_answers }
    ensures settings_in_pieces { as_lists (answers settings_in_pieces_endpoint settings_in_pieces) ≡ settings_in_pieces_answers }
    ensures decoder_bytes_before_settings { as_lists (answers decoder_bytes_before_settings_endpoint decoder_bytes_before_settings)
        ≡ decoder_bytes_before_settings_answers }
    ensures interim_heads_in_the_table { as_lists (answers interim_heads_in_the_table_endpoint interim_heads_in_the_table)
        ≡ interim_heads_in_the_table_answers }
    ensures canceled_stream_without_the_table { as_lists
        (answers canceled_stream_without_the_table_endpoint canceled_stream_without_the_table) ≡ canceled_stream_without_the_table_answers }
    ensures cancellation_releases_all_sections { as_lists
        (answers cancellation_releases_all_sections_endpoint cancellation_releases_all_sections)
        ≡ cancellation_releases_all_sections_answers }
    ensures tries_of_a_head_that_waits { (incoming_at (endpoint_after head_waits_for_insertions_endpoint
        (take 2 head_waits_for_insertions)) 4).tries ≡ 1 }
    ensures tries_of_a_head_that_came { (incoming_at (endpoint_after head_waits_for_insertions_endpoint head_waits_for_insertions) 4).tries
        ≡ 2 }
    ensures tries_while_it_waits { (incoming_at (endpoint_after one_stream_too_many_waits_endpoint one_stream_too_many_waits) 0).tries ≡ 1 }
    ensures tries_of_a_section_missing_twice { (incoming_at (endpoint_after section_missing_at_its_second_try_endpoint section_missing_at_its_second_try) 0).tries ≡ 2 }
{}

//! Worked rows of endpoints that ask for a strict connection.

ghost use Rattle.std.specs.Prelude.{◌≡◌};
ghost use Rattle.h3_connection.specs.CallLists.{answers};
ghost use Rattle.h3_connection_rows.specs.Worked.{as_lists};
ghost use Rattle.h3_connection_rows.specs.StrictRows.{unknown_frame_first_endpoint, unknown_frame_first, unknown_frame_first_answers};
ghost use Rattle.h3_connection_rows.specs.StrictRows.{settings_first_endpoint, settings_first, settings_first_answers};
ghost use Rattle.h3_connection_rows.specs.StrictRows.{long_type_of_settings_endpoint, long_type_of_settings, long_type_of_settings_answers};
ghost use Rattle.h3_connection_rows.specs.StrictRows.{connect_of_two_at_a_client_endpoint, connect_of_two_at_a_client};
ghost use Rattle.h3_connection_rows.specs.StrictRows.{connect_of_two_at_a_client_answers, connect_of_two_at_a_server_endpoint};
ghost use Rattle.h3_connection_rows.specs.StrictRows.{connect_of_two_at_a_server, connect_of_two_at_a_server_answers};
ghost use Rattle.h3_connection_rows.specs.StrictRows.{datagrams_of_two_endpoint, datagrams_of_two, datagrams_of_two_answers};
ghost use Rattle.h3_connection_rows.specs.StrictRows.{refused_before_later_faults_endpoint, refused_before_later_faults};
ghost use Rattle.h3_connection_rows.specs.StrictRows.{refused_before_later_faults_answers, sessions_alone_endpoint, sessions_alone};
ghost use Rattle.h3_connection_rows.specs.StrictRows.{sessions_alone_answers, sessions_with_datagrams_endpoint, sessions_with_datagrams};
ghost use Rattle.h3_connection_rows.specs.StrictRows.{sessions_with_datagrams_answers, sessions_alone_elsewhere_endpoint};
ghost use Rattle.h3_connection_rows.specs.StrictRows.{sessions_alone_elsewhere, sessions_alone_elsewhere_answers};
ghost use Rattle.h3_connection_rows.specs.StrictRows.{session_of_no_request_endpoint, session_of_no_request, session_of_no_request_answers};
ghost use Rattle.h3_connection_rows.specs.StrictRows.{session_in_a_request_stream_endpoint, session_in_a_request_stream};
ghost use Rattle.h3_connection_rows.specs.StrictRows.{session_in_a_request_stream_answers, request_behind_a_goaway_endpoint};
ghost use Rattle.h3_connection_rows.specs.StrictRows.{request_behind_a_goaway, request_behind_a_goaway_answers};
ghost use Rattle.h3_connection_rows.specs.StrictRows.{request_behind_a_goaway_loosely_endpoint, request_behind_a_goaway_loosely};
ghost use Rattle.h3_connection_rows.specs.StrictRows.{request_behind_a_goaway_loosely_answers, begun_before_a_goaway_endpoint};
ghost use Rattle.h3_connection_rows.specs.StrictRows.{begun_before_a_goaway, begun_before_a_goaway_answers, long_instruction_endpoint};
ghost use Rattle.h3_connection_rows.specs.StrictRows.{long_instruction, long_instruction_answers, long_reply_endpoint, long_reply};
ghost use Rattle.h3_connection_rows.specs.StrictRows.{long_reply_answers, entry_at_the_count_endpoint, entry_at_the_count};
ghost use Rattle.h3_connection_rows.specs.StrictRows.{entry_at_the_count_answers, larger_count_endpoint, larger_count};
ghost use Rattle.h3_connection_rows.specs.StrictRows.{larger_count_answers, entry_at_the_count_loosely_endpoint};
ghost use Rattle.h3_connection_rows.specs.StrictRows.{entry_at_the_count_loosely, entry_at_the_count_loosely_answers};
ghost use Rattle.h3_connection_rows.specs.StrictRows.{count_without_a_table_endpoint, count_without_a_table, count_without_a_table_answers};
ghost use Rattle.h3_connection_rows.specs.StrictRows.{sign_without_a_table_endpoint, sign_without_a_table, sign_without_a_table_answers};
ghost use Rattle.h3_connection_rows.specs.StrictRows.{session_frame_not_announced_endpoint, session_frame_not_announced};
ghost use Rattle.h3_connection_rows.specs.StrictRows.{session_frame_not_announced_answers, session_frame_in_a_response_endpoint};
ghost use Rattle.h3_connection_rows.specs.StrictRows.{session_frame_in_a_response, session_frame_in_a_response_answers};
ghost use Rattle.h3_connection_rows.specs.StrictRows.{session_frame_on_the_control_stream_endpoint, session_frame_on_the_control_stream};
ghost use Rattle.h3_connection_rows.specs.StrictRows.{session_frame_on_the_control_stream_answers, session_stream_not_announced_endpoint};
ghost use Rattle.h3_connection_rows.specs.StrictRows.{session_stream_not_announced, session_stream_not_announced_answers};
ghost use Rattle.h3_connection_rows.specs.StrictRows.{session_frame_loosely_endpoint, session_frame_loosely, session_frame_loosely_answers};

/// A strict connection is closed so.
pub fn strict_rows_compute()
    ensures unknown_frame_first { as_lists (answers unknown_frame_first_endpoint unknown_frame_first) ≡ unknown_frame_first_answers }
    ensures settings_first { as_lists (answers settings_first_endpoint settings_first) ≡ settings_first_answers }
    ensures long_type_of_settings { as_lists (answers long_type_of_settings_endpoint long_type_of_settings)
        ≡ long_type_of_settings_answers }
    ensures connect_of_two_at_a_client { as_lists (answers connect_of_two_at_a_client_endpoint connect_of_two_at_a_client)
        ≡ connect_of_two_at_a_client_answers }
    ensures connect_of_two_at_a_server { as_lists (answers connect_of_two_at_a_server_endpoint connect_of_two_at_a_server)
        ≡ connect_of_two_at_a_server_answers }
    ensures datagrams_of_two { as_lists (answers datagrams_of_two_endpoint datagrams_of_two) ≡ datagrams_of_two_answers }
    ensures refused_before_later_faults { as_lists (answers refused_before_later_faults_endpoint refused_before_later_faults)
        ≡ refused_before_later_faults_answers }
    ensures sessions_alone { as_lists (answers sessions_alone_endpoint sessions_alone) ≡ sessions_alone_answers }
    ensures sessions_with_datagrams { as_lists (answers sessions_with_datagrams_endpoint sessions_with_datagrams)
        ≡ sessions_with_datagrams_answers }
    ensures sessions_alone_elsewhere { as_lists (answers sessions_alone_elsewhere_endpoint sessions_alone_elsewhere)
        ≡ sessions_alone_elsewhere_answers }
    ensures session_of_no_request { as_lists (answers session_of_no_request_endpoint session_of_no_request)
        ≡ session_of_no_request_answers }
    ensures session_in_a_request_stream { as_lists (answers session_in_a_request_stream_endpoint session_in_a_request_stream)
        ≡ session_in_a_request_stream_answers }
    ensures request_behind_a_goaway { as_lists (answers request_behind_a_goaway_endpoint request_behind_a_goaway)
        ≡ request_behind_a_goaway_answers }
    ensures request_behind_a_goaway_loosely { as_lists (answers request_behind_a_goaway_loosely_endpoint request_behind_a_goaway_loosely)
        ≡ request_behind_a_goaway_loosely_answers }
    ensures begun_before_a_goaway { as_lists (answers begun_before_a_goaway_endpoint begun_before_a_goaway)
        ≡ begun_before_a_goaway_answers }
    ensures long_instruction { as_lists (answers long_instruction_endpoint long_instruction) ≡ long_instruction_answers }
    ensures long_reply { as_lists (answers long_reply_endpoint long_reply) ≡ long_reply_answers }
    ensures entry_at_the_count { as_lists (answers entry_at_the_count_endpoint entry_at_the_count) ≡ entry_at_the_count_answers }
    ensures larger_count { as_lists (answers larger_count_endpoint larger_count) ≡ larger_count_answers }
    ensures entry_at_the_count_loosely { as_lists (answers entry_at_the_count_loosely_endpoint entry_at_the_count_loosely)
        ≡ entry_at_the_count_loosely_answers }
    ensures count_without_a_table { as_lists (answers count_without_a_table_endpoint count_without_a_table)
        ≡ count_without_a_table_answers }
    ensures sign_without_a_table { as_lists (answers sign_without_a_table_endpoint sign_without_a_table) ≡ sign_without_a_table_answers }
    ensures session_frame_not_announced { as_lists (answers session_frame_not_announced_endpoint session_frame_not_announced)
        ≡ session_frame_not_announced_answers }
    ensures session_frame_in_a_response { as_lists (answers session_frame_in_a_response_endpoint session_frame_in_a_response)
        ≡ session_frame_in_a_response_answers }
    ensures session_frame_on_the_control_stream { as_lists
        (answers session_frame_on_the_control_stream_endpoint session_frame_on_the_control_stream)
        ≡ session_frame_on_the_control_stream_answers }
    ensures session_stream_not_announced { as_lists (answers session_stream_not_announced_endpoint session_stream_not_announced)
        ≡ session_stream_not_announced_answers }
    ensures session_frame_loosely { as_lists (answers session_frame_loosely_endpoint session_frame_loosely)
        ≡ session_frame_loosely_answers }
{}

//! Worked rows of faults of the connection.

ghost use Rattle.std.specs.Prelude.{◌≡◌};
ghost use Rattle.h3_connection.specs.CallLists.{answers};
ghost use Rattle.h3_connection_rows.specs.Worked.{as_lists};
ghost use Rattle.h3_connection_rows.specs.FaultRows.{body_before_the_head_endpoint, body_before_the_head, body_before_the_head_answers};
ghost use Rattle.h3_connection_rows.specs.FaultRows.{end_inside_a_frame_endpoint, end_inside_a_frame, end_inside_a_frame_answers};
ghost use Rattle.h3_connection_rows.specs.FaultRows.{end_without_a_head_endpoint, end_without_a_head, end_without_a_head_answers};
ghost use Rattle.h3_connection_rows.specs.FaultRows.{goaway_before_settings_endpoint, goaway_before_settings};
ghost use Rattle.h3_connection_rows.specs.FaultRows.{goaway_before_settings_answers, settings_refused_endpoint, settings_refused};
ghost use Rattle.h3_connection_rows.specs.FaultRows.{settings_refused_answers, goaway_too_long_endpoint, goaway_too_long};
ghost use Rattle.h3_connection_rows.specs.FaultRows.{goaway_too_long_answers, goaway_raised_endpoint, goaway_raised, goaway_raised_answers};
ghost use Rattle.h3_connection_rows.specs.FaultRows.{push_stream_at_a_client_endpoint, push_stream_at_a_client};
ghost use Rattle.h3_connection_rows.specs.FaultRows.{push_stream_at_a_client_answers, push_stream_at_a_server_endpoint};
ghost use Rattle.h3_connection_rows.specs.FaultRows.{push_stream_at_a_server, push_stream_at_a_server_answers};
ghost use Rattle.h3_connection_rows.specs.FaultRows.{max_push_id_at_a_client_endpoint, max_push_id_at_a_client};
ghost use Rattle.h3_connection_rows.specs.FaultRows.{max_push_id_at_a_client_answers, max_push_id_lowered_endpoint, max_push_id_lowered};
ghost use Rattle.h3_connection_rows.specs.FaultRows.{max_push_id_lowered_answers, cancel_push_at_a_client_endpoint};
ghost use Rattle.h3_connection_rows.specs.FaultRows.{cancel_push_at_a_client, cancel_push_at_a_client_answers};
ghost use Rattle.h3_connection_rows.specs.FaultRows.{cancel_push_at_a_server_endpoint, cancel_push_at_a_server};
ghost use Rattle.h3_connection_rows.specs.FaultRows.{cancel_push_at_a_server_answers, push_promise_at_a_client_endpoint};
ghost use Rattle.h3_connection_rows.specs.FaultRows.{push_promise_at_a_client, push_promise_at_a_client_answers};
ghost use Rattle.h3_connection_rows.specs.FaultRows.{push_promise_at_a_server_endpoint, push_promise_at_a_server};
ghost use Rattle.h3_connection_rows.specs.FaultRows.{push_promise_at_a_server_answers, stream_of_a_server_endpoint, stream_of_a_server};
ghost use Rattle.h3_connection_rows.specs.FaultRows.{stream_of_a_server_answers, second_control_stream_endpoint, second_control_stream};
ghost use Rattle.h3_connection_rows.specs.FaultRows.{second_control_stream_answers, control_stream_ended_endpoint, control_stream_ended};
ghost use Rattle.h3_connection_rows.specs.FaultRows.{control_stream_ended_answers, stream_without_a_type_ended_endpoint};
ghost use Rattle.h3_connection_rows.specs.FaultRows.{stream_without_a_type_ended, stream_without_a_type_ended_answers};
ghost use Rattle.h3_connection_rows.specs.FaultRows.{stream_of_unknown_type_endpoint, stream_of_unknown_type};
ghost use Rattle.h3_connection_rows.specs.FaultRows.{stream_of_unknown_type_answers, second_control_stream_unread_endpoint};
ghost use Rattle.h3_connection_rows.specs.FaultRows.{second_control_stream_unread, second_control_stream_unread_answers};
ghost use Rattle.h3_connection_rows.specs.FaultRows.{control_fault_before_decoder_fault_endpoint, control_fault_before_decoder_fault};
ghost use Rattle.h3_connection_rows.specs.FaultRows.{control_fault_before_decoder_fault_answers, two_trailers_endpoint, two_trailers};
ghost use Rattle.h3_connection_rows.specs.FaultRows.{two_trailers_answers, settings_before_a_fault_endpoint, settings_before_a_fault};
ghost use Rattle.h3_connection_rows.specs.FaultRows.{settings_before_a_fault_answers, increment_before_a_fault_endpoint};
ghost use Rattle.h3_connection_rows.specs.FaultRows.{increment_before_a_fault, increment_before_a_fault_answers};
ghost use Rattle.h3_connection_rows.specs.FaultRows.{bad_name_of_an_unfinished_instruction_endpoint, bad_name_of_an_unfinished_instruction};
ghost use Rattle.h3_connection_rows.specs.FaultRows.{bad_name_of_an_unfinished_instruction_answers, body_behind_an_interim_head_endpoint};
ghost use Rattle.h3_connection_rows.specs.FaultRows.{body_behind_an_interim_head, body_behind_an_interim_head_answers};
ghost use Rattle.h3_connection_rows.specs.FaultRows.{settings_above_the_limit_endpoint, settings_above_the_limit};
ghost use Rattle.h3_connection_rows.specs.FaultRows.{settings_above_the_limit_answers, settings_above_the_limit_in_two_endpoint};
ghost use Rattle.h3_connection_rows.specs.FaultRows.{settings_above_the_limit_in_two, settings_above_the_limit_in_two_answers};
ghost use Rattle.h3_connection_rows.specs.FaultRows.{goaway_above_the_limit_endpoint, goaway_above_the_limit};
ghost use Rattle.h3_connection_rows.specs.FaultRows.{goaway_above_the_limit_answers, settings_at_the_limit_endpoint, settings_at_the_limit};
ghost use Rattle.h3_connection_rows.specs.FaultRows.{settings_at_the_limit_answers};

/// Faults of the connection are found so.
pub fn fault_rows_compute()
    ensures body_before_the_head { as_lists (answers body_before_the_head_endpoint body_before_the_head) ≡ body_before_the_head_answers }
    ensures end_inside_a_frame { as_lists (answers end_inside_a_frame_endpoint end_inside_a_frame) ≡ end_inside_a_frame_answers }
    ensures end_without_a_head { as_lists (answers end_without_a_head_endpoint end_without_a_head) ≡ end_without_a_head_answers }
    ensures goaway_before_settings { as_lists (answers goaway_before_settings_endpoint goaway_before_settings)
        ≡ goaway_before_settings_answers }
    ensures settings_refused { as_lists (answers settings_refused_endpoint settings_refused) ≡ settings_refused_answers }
    ensures goaway_too_long { as_lists (answers goaway_too_long_endpoint goaway_too_long) ≡ goaway_too_long_answers }
    ensures goaway_raised { as_lists (answers goaway_raised_endpoint goaway_raised) ≡ goaway_raised_answers }
    ensures push_stream_at_a_client { as_lists (answers push_stream_at_a_client_endpoint push_stream_at_a_client)
        ≡ push_stream_at_a_client_answers }
    ensures push_stream_at_a_server { as_lists (answers push_stream_at_a_server_endpoint push_stream_at_a_server)
        ≡ push_stream_at_a_server_answers }
    ensures max_push_id_at_a_client { as_lists (answers max_push_id_at_a_client_endpoint max_push_id_at_a_client)
        ≡ max_push_id_at_a_client_answers }
    ensures max_push_id_lowered { as_lists (answers max_push_id_lowered_endpoint max_push_id_lowered) ≡ max_push_id_lowered_answers }
    ensures cancel_push_at_a_client { as_lists (answers cancel_push_at_a_client_endpoint cancel_push_at_a_client)
        ≡ cancel_push_at_a_client_answers }
    ensures cancel_push_at_a_server { as_lists (answers cancel_push_at_a_server_endpoint cancel_push_at_a_server)
        ≡ cancel_push_at_a_server_answers }
    ensures push_promise_at_a_client { as_lists (answers push_promise_at_a_client_endpoint push_promise_at_a_client)
        ≡ push_promise_at_a_client_answers }
    ensures push_promise_at_a_server { as_lists (answers push_promise_at_a_server_endpoint push_promise_at_a_server)
        ≡ push_promise_at_a_server_answers }
    ensures stream_of_a_server { as_lists (answers stream_of_a_server_endpoint stream_of_a_server) ≡ stream_of_a_server_answers }
    ensures second_control_stream { as_lists (answers second_control_stream_endpoint second_control_stream)
        ≡ second_control_stream_answers }
    ensures control_stream_ended { as_lists (answers control_stream_ended_endpoint control_stream_ended) ≡ control_stream_ended_answers }
    ensures stream_without_a_type_ended { as_lists (answers stream_without_a_type_ended_endpoint stream_without_a_type_ended)
        ≡ stream_without_a_type_ended_answers }
    ensures stream_of_unknown_type { as_lists (answers stream_of_unknown_type_endpoint stream_of_unknown_type)
        ≡ stream_of_unknown_type_answers }
    ensures second_control_stream_unread { as_lists (answers second_control_stream_unread_endpoint second_control_stream_unread)
        ≡ second_control_stream_unread_answers }
    ensures control_fault_before_decoder_fault { as_lists
        (answers control_fault_before_decoder_fault_endpoint control_fault_before_decoder_fault)
        ≡ control_fault_before_decoder_fault_answers }
    ensures two_trailers { as_lists (answers two_trailers_endpoint two_trailers) ≡ two_trailers_answers }
    ensures settings_before_a_fault { as_lists (answers settings_before_a_fault_endpoint settings_before_a_fault)
        ≡ settings_before_a_fault_answers }
    ensures increment_before_a_fault { as_lists (answers increment_before_a_fault_endpoint increment_before_a_fault)
        ≡ increment_before_a_fault_answers }
    ensures bad_name_of_an_unfinished_instruction { as_lists
        (answers bad_name_of_an_unfinished_instruction_endpoint bad_name_of_an_unfinished_instruction)
        ≡ bad_name_of_an_unfinished_instruction_answers }
    ensures body_behind_an_interim_head { as_lists (answers body_behind_an_interim_head_endpoint body_behind_an_interim_head)
        ≡ body_behind_an_interim_head_answers }
    ensures settings_above_the_limit { as_lists (answers settings_above_the_limit_endpoint settings_above_the_limit)
        ≡ settings_above_the_limit_answers }
    ensures settings_above_the_limit_in_two { as_lists (answers settings_above_the_limit_in_two_endpoint settings_above_the_limit_in_two)
        ≡ settings_above_the_limit_in_two_answers }
    ensures goaway_above_the_limit { as_lists (answers goaway_above_the_limit_endpoint goaway_above_the_limit)
        ≡ goaway_above_the_limit_answers }
    ensures settings_at_the_limit { as_lists (answers settings_at_the_limit_endpoint settings_at_the_limit)
        ≡ settings_at_the_limit_answers }
{}

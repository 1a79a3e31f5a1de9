//! Worked rows of messages: header sections, bodies, sessions, resets and cancellations.

ghost use Rattle.std.specs.Prelude.{◌≡◌};
ghost use Rattle.h3_connection.specs.CallLists.{answers};
ghost use Rattle.h3_connection_rows.specs.Worked.{as_lists};
ghost use Rattle.h3_connection_rows.specs.MessageRows.{response_with_a_body_sent_endpoint, response_with_a_body_sent};
ghost use Rattle.h3_connection_rows.specs.MessageRows.{response_with_a_body_sent_answers, response_read_byte_by_byte_endpoint};
ghost use Rattle.h3_connection_rows.specs.MessageRows.{response_read_byte_by_byte, response_read_byte_by_byte_answers};
ghost use Rattle.h3_connection_rows.specs.MessageRows.{section_above_the_own_size_endpoint, section_above_the_own_size};
ghost use Rattle.h3_connection_rows.specs.MessageRows.{section_above_the_own_size_answers, request_without_settings_endpoint};
ghost use Rattle.h3_connection_rows.specs.MessageRows.{request_without_settings, request_without_settings_answers};
ghost use Rattle.h3_connection_rows.specs.MessageRows.{unknown_frame_skipped_endpoint, unknown_frame_skipped};
ghost use Rattle.h3_connection_rows.specs.MessageRows.{unknown_frame_skipped_answers, name_in_upper_case_endpoint, name_in_upper_case};
ghost use Rattle.h3_connection_rows.specs.MessageRows.{name_in_upper_case_answers, webtransport_sessions_endpoint, webtransport_sessions};
ghost use Rattle.h3_connection_rows.specs.MessageRows.{webtransport_sessions_answers, reset_ends_sending_endpoint, reset_ends_sending};
ghost use Rattle.h3_connection_rows.specs.MessageRows.{reset_ends_sending_answers, reset_delivered_endpoint, reset_delivered};
ghost use Rattle.h3_connection_rows.specs.MessageRows.{reset_delivered_answers, goaways_sent_endpoint, goaways_sent, goaways_sent_answers};
ghost use Rattle.h3_connection_rows.specs.MessageRows.{cancellations_refused_endpoint, cancellations_refused};
ghost use Rattle.h3_connection_rows.specs.MessageRows.{cancellations_refused_answers, session_type_without_an_id_endpoint};
ghost use Rattle.h3_connection_rows.specs.MessageRows.{session_type_without_an_id, session_type_without_an_id_answers};
ghost use Rattle.h3_connection_rows.specs.MessageRows.{empty_authority_endpoint, empty_authority, empty_authority_answers};
ghost use Rattle.h3_connection_rows.specs.MessageRows.{long_frame_heads_byte_by_byte_endpoint, long_frame_heads_byte_by_byte};
ghost use Rattle.h3_connection_rows.specs.MessageRows.{long_frame_heads_byte_by_byte_answers, session_reset_endpoint, session_reset};
ghost use Rattle.h3_connection_rows.specs.MessageRows.{session_reset_answers, interim_head_alone_endpoint, interim_head_alone};
ghost use Rattle.h3_connection_rows.specs.MessageRows.{interim_head_alone_answers, empty_data_frames_endpoint, empty_data_frames};
ghost use Rattle.h3_connection_rows.specs.MessageRows.{empty_data_frames_answers, malformed_head_acknowledged_endpoint};
ghost use Rattle.h3_connection_rows.specs.MessageRows.{malformed_head_acknowledged, malformed_head_acknowledged_answers};
ghost use Rattle.h3_connection_rows.specs.MessageRows.{large_section_acknowledged_endpoint, large_section_acknowledged};
ghost use Rattle.h3_connection_rows.specs.MessageRows.{large_section_acknowledged_answers, interim_head_sent_endpoint, interim_head_sent};
ghost use Rattle.h3_connection_rows.specs.MessageRows.{interim_head_sent_answers, interim_head_read_endpoint, interim_head_read};
ghost use Rattle.h3_connection_rows.specs.MessageRows.{interim_head_read_answers, end_behind_an_interim_head_endpoint};
ghost use Rattle.h3_connection_rows.specs.MessageRows.{end_behind_an_interim_head, end_behind_an_interim_head_answers};
ghost use Rattle.h3_connection_rows.specs.MessageRows.{interim_head_above_the_own_size_endpoint, interim_head_above_the_own_size};
ghost use Rattle.h3_connection_rows.specs.MessageRows.{interim_head_above_the_own_size_answers, interim_head_in_a_trailers_place_endpoint};
ghost use Rattle.h3_connection_rows.specs.MessageRows.{interim_head_in_a_trailers_place, interim_head_in_a_trailers_place_answers};
ghost use Rattle.h3_connection_rows.specs.MessageRows.{content_counted_endpoint, content_counted, content_counted_answers};
ghost use Rattle.h3_connection_rows.specs.MessageRows.{response_content_counted_endpoint, response_content_counted};
ghost use Rattle.h3_connection_rows.specs.MessageRows.{response_content_counted_answers};

/// Messages are answered so.
pub fn message_rows_compute()
    ensures response_with_a_body_sent { as_lists (answers response_with_a_body_sent_endpoint response_with_a_body_sent)
        ≡ response_with_a_body_sent_answers }
    ensures response_read_byte_by_byte { as_lists (answers response_read_byte_by_byte_endpoint response_read_byte_by_byte)
        ≡ response_read_byte_by_byte_answers }
    ensures section_above_the_own_size { as_lists (answers section_above_the_own_size_endpoint section_above_the_own_size)
        ≡ section_above_the_own_size_answers }
    ensures request_without_settings { as_lists (answers request_without_settings_endpoint request_without_settings)
        ≡ request_without_settings_answers }
    ensures unknown_frame_skipped { as_lists (answers unknown_frame_skipped_endpoint unknown_frame_skipped)
        ≡ unknown_frame_skipped_answers }
    ensures name_in_upper_case { as_lists (answers name_in_upper_case_endpoint name_in_upper_case) ≡ name_in_upper_case_answers }
    ensures webtransport_sessions { as_lists (answers webtransport_sessions_endpoint webtransport_sessions)
        ≡ webtransport_sessions_answers }
    ensures reset_ends_sending { as_lists (answers reset_ends_sending_endpoint reset_ends_sending) ≡ reset_ends_sending_answers }
    ensures reset_delivered { as_lists (answers reset_delivered_endpoint reset_delivered) ≡ reset_delivered_answers }
    ensures goaways_sent { as_lists (answers goaways_sent_endpoint goaways_sent) ≡ goaways_sent_answers }
    ensures cancellations_refused { as_lists (answers cancellations_refused_endpoint cancellations_refused)
        ≡ cancellations_refused_answers }
    ensures session_type_without_an_id { as_lists (answers session_type_without_an_id_endpoint session_type_without_an_id)
        ≡ session_type_without_an_id_answers }
    ensures empty_authority { as_lists (answers empty_authority_endpoint empty_authority) ≡ empty_authority_answers }
    ensures long_frame_heads_byte_by_byte { as_lists (answers long_frame_heads_byte_by_byte_endpoint long_frame_heads_byte_by_byte)
        ≡ long_frame_heads_byte_by_byte_answers }
    ensures session_reset { as_lists (answers session_reset_endpoint session_reset) ≡ session_reset_answers }
    ensures interim_head_alone { as_lists (answers interim_head_alone_endpoint interim_head_alone) ≡ interim_head_alone_answers }
    ensures empty_data_frames { as_lists (answers empty_data_frames_endpoint empty_data_frames) ≡ empty_data_frames_answers }
    ensures malformed_head_acknowledged { as_lists (answers malformed_head_acknowledged_endpoint malformed_head_acknowledged)
        ≡ malformed_head_acknowledged_answers }
    ensures large_section_acknowledged { as_lists (answers large_section_acknowledged_endpoint large_section_acknowledged)
        ≡ large_section_acknowledged_answers }
    ensures interim_head_sent { as_lists (answers interim_head_sent_endpoint interim_head_sent) ≡ interim_head_sent_answers }
    ensures interim_head_read { as_lists (answers interim_head_read_endpoint interim_head_read) ≡ interim_head_read_answers }
    ensures end_behind_an_interim_head { as_lists (answers end_behind_an_interim_head_endpoint end_behind_an_interim_head)
        ≡ end_behind_an_interim_head_answers }
    ensures interim_head_above_the_own_size { as_lists (answers interim_head_above_the_own_size_endpoint interim_head_above_the_own_size)
        ≡ interim_head_above_the_own_size_answers }
    ensures interim_head_in_a_trailers_place { as_lists (answers interim_head_in_a_trailers_place_endpoint interim_head_in_a_trailers_place)
        ≡ interim_head_in_a_trailers_place_answers }
    ensures content_counted { as_lists (answers content_counted_endpoint content_counted) ≡ content_counted_answers }
    ensures response_content_counted { as_lists (answers response_content_counted_endpoint response_content_counted)
        ≡ response_content_counted_answers }
{}

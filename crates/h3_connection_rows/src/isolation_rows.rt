//! Worked rows of one stream beside calls of others.

ghost use Rattle.std.specs.Prelude.{◌≡◌};
ghost use Rattle.h3_connection.specs.CallLists.{answers};
ghost use Rattle.h3_connection_rows.specs.Worked.{as_lists};
ghost use Rattle.h3_connection_rows.specs.IsolationRows.{beside_a_malformed_head_at_0_endpoint, beside_a_malformed_head_at_0};
ghost use Rattle.h3_connection_rows.specs.IsolationRows.{beside_a_malformed_head_at_0_answers, beside_an_unknown_stream_at_0_endpoint};
ghost use Rattle.h3_connection_rows.specs.IsolationRows.{beside_an_unknown_stream_at_0, beside_an_unknown_stream_at_0_answers};
ghost use Rattle.h3_connection_rows.specs.IsolationRows.{beside_a_cancellation_at_0_endpoint, beside_a_cancellation_at_0};
ghost use Rattle.h3_connection_rows.specs.IsolationRows.{beside_a_cancellation_at_0_answers, beside_settings_at_0_endpoint};
ghost use Rattle.h3_connection_rows.specs.IsolationRows.{beside_settings_at_0, beside_settings_at_0_answers};
ghost use Rattle.h3_connection_rows.specs.IsolationRows.{beside_all_of_them_at_0_endpoint, beside_all_of_them_at_0};
ghost use Rattle.h3_connection_rows.specs.IsolationRows.{beside_all_of_them_at_0_answers, beside_a_malformed_head_at_1_endpoint};
ghost use Rattle.h3_connection_rows.specs.IsolationRows.{beside_a_malformed_head_at_1, beside_a_malformed_head_at_1_answers};
ghost use Rattle.h3_connection_rows.specs.IsolationRows.{beside_an_unknown_stream_at_1_endpoint, beside_an_unknown_stream_at_1};
ghost use Rattle.h3_connection_rows.specs.IsolationRows.{beside_an_unknown_stream_at_1_answers, beside_a_cancellation_at_1_endpoint};
ghost use Rattle.h3_connection_rows.specs.IsolationRows.{beside_a_cancellation_at_1, beside_a_cancellation_at_1_answers};
ghost use Rattle.h3_connection_rows.specs.IsolationRows.{beside_settings_at_1_endpoint, beside_settings_at_1, beside_settings_at_1_answers};
ghost use Rattle.h3_connection_rows.specs.IsolationRows.{beside_all_of_them_at_1_endpoint, beside_all_of_them_at_1};
ghost use Rattle.h3_connection_rows.specs.IsolationRows.{beside_all_of_them_at_1_answers, beside_a_malformed_head_at_2_endpoint};
ghost use Rattle.h3_connection_rows.specs.IsolationRows.{beside_a_malformed_head_at_2, beside_a_malformed_head_at_2_answers};
ghost use Rattle.h3_connection_rows.specs.IsolationRows.{beside_an_unknown_stream_at_2_endpoint, beside_an_unknown_stream_at_2};
ghost use Rattle.h3_connection_rows.specs.IsolationRows.{beside_an_unknown_stream_at_2_answers, beside_a_cancellation_at_2_endpoint};
ghost use Rattle.h3_connection_rows.specs.IsolationRows.{beside_a_cancellation_at_2, beside_a_cancellation_at_2_answers};
ghost use Rattle.h3_connection_rows.specs.IsolationRows.{beside_settings_at_2_endpoint, beside_settings_at_2, beside_settings_at_2_answers};
ghost use Rattle.h3_connection_rows.specs.IsolationRows.{beside_all_of_them_at_2_endpoint, beside_all_of_them_at_2};
ghost use Rattle.h3_connection_rows.specs.IsolationRows.{beside_all_of_them_at_2_answers, beside_a_malformed_head_at_3_endpoint};
ghost use Rattle.h3_connection_rows.specs.IsolationRows.{beside_a_malformed_head_at_3, beside_a_malformed_head_at_3_answers};
ghost use Rattle.h3_connection_rows.specs.IsolationRows.{beside_an_unknown_stream_at_3_endpoint, beside_an_unknown_stream_at_3};
ghost use Rattle.h3_connection_rows.specs.IsolationRows.{beside_an_unknown_stream_at_3_answers, beside_a_cancellation_at_3_endpoint};
ghost use Rattle.h3_connection_rows.specs.IsolationRows.{beside_a_cancellation_at_3, beside_a_cancellation_at_3_answers};
ghost use Rattle.h3_connection_rows.specs.IsolationRows.{beside_settings_at_3_endpoint, beside_settings_at_3, beside_settings_at_3_answers};
ghost use Rattle.h3_connection_rows.specs.IsolationRows.{beside_all_of_them_at_3_endpoint, beside_all_of_them_at_3};
ghost use Rattle.h3_connection_rows.specs.IsolationRows.{beside_all_of_them_at_3_answers, beside_a_malformed_head_at_4_endpoint};
ghost use Rattle.h3_connection_rows.specs.IsolationRows.{beside_a_malformed_head_at_4, beside_a_malformed_head_at_4_answers};
ghost use Rattle.h3_connection_rows.specs.IsolationRows.{beside_an_unknown_stream_at_4_endpoint, beside_an_unknown_stream_at_4};
ghost use Rattle.h3_connection_rows.specs.IsolationRows.{beside_an_unknown_stream_at_4_answers, beside_a_cancellation_at_4_endpoint};
ghost use Rattle.h3_connection_rows.specs.IsolationRows.{beside_a_cancellation_at_4, beside_a_cancellation_at_4_answers};
ghost use Rattle.h3_connection_rows.specs.IsolationRows.{beside_settings_at_4_endpoint, beside_settings_at_4, beside_settings_at_4_answers};
ghost use Rattle.h3_connection_rows.specs.IsolationRows.{beside_all_of_them_at_4_endpoint, beside_all_of_them_at_4};
ghost use Rattle.h3_connection_rows.specs.IsolationRows.{beside_all_of_them_at_4_answers};

/// A header section that waits is answered alike whatever happens on other streams.
pub fn isolation_rows_compute()
    ensures beside_a_malformed_head_at_0 { as_lists (answers beside_a_malformed_head_at_0_endpoint beside_a_malformed_head_at_0)
        ≡ beside_a_malformed_head_at_0_answers }
    ensures beside_an_unknown_stream_at_0 { as_lists (answers beside_an_unknown_stream_at_0_endpoint beside_an_unknown_stream_at_0)
        ≡ beside_an_unknown_stream_at_0_answers }
    ensures beside_a_cancellation_at_0 { as_lists (answers beside_a_cancellation_at_0_endpoint beside_a_cancellation_at_0)
        ≡ beside_a_cancellation_at_0_answers }
    ensures beside_settings_at_0 { as_lists (answers beside_settings_at_0_endpoint beside_settings_at_0) ≡ beside_settings_at_0_answers }
    ensures beside_all_of_them_at_0 { as_lists (answers beside_all_of_them_at_0_endpoint beside_all_of_them_at_0)
        ≡ beside_all_of_them_at_0_answers }
    ensures beside_a_malformed_head_at_1 { as_lists (answers beside_a_malformed_head_at_1_endpoint beside_a_malformed_head_at_1)
        ≡ beside_a_malformed_head_at_1_answers }
    ensures beside_an_unknown_stream_at_1 { as_lists (answers beside_an_unknown_stream_at_1_endpoint beside_an_unknown_stream_at_1)
        ≡ beside_an_unknown_stream_at_1_answers }
    ensures beside_a_cancellation_at_1 { as_lists (answers beside_a_cancellation_at_1_endpoint beside_a_cancellation_at_1)
        ≡ beside_a_cancellation_at_1_answers }
    ensures beside_settings_at_1 { as_lists (answers beside_settings_at_1_endpoint beside_settings_at_1) ≡ beside_settings_at_1_answers }
    ensures beside_all_of_them_at_1 { as_lists (answers beside_all_of_them_at_1_endpoint beside_all_of_them_at_1)
        ≡ beside_all_of_them_at_1_answers }
    ensures beside_a_malformed_head_at_2 { as_lists (answers beside_a_malformed_head_at_2_endpoint beside_a_malformed_head_at_2)
        ≡ beside_a_malformed_head_at_2_answers }
    ensures beside_an_unknown_stream_at_2 { as_lists (answers beside_an_unknown_stream_at_2_endpoint beside_an_unknown_stream_at_2)
        ≡ beside_an_unknown_stream_at_2_answers }
    ensures beside_a_cancellation_at_2 { as_lists (answers beside_a_cancellation_at_2_endpoint beside_a_cancellation_at_2)
        ≡ beside_a_cancellation_at_2_answers }
    ensures beside_settings_at_2 { as_lists (answers beside_settings_at_2_endpoint beside_settings_at_2) ≡ beside_settings_at_2_answers }
    ensures beside_all_of_them_at_2 { as_lists (answers beside_all_of_them_at_2_endpoint beside_all_of_them_at_2)
        ≡ beside_all_of_them_at_2_answers }
    ensures beside_a_malformed_head_at_3 { as_lists (answers beside_a_malformed_head_at_3_endpoint beside_a_malformed_head_at_3)
        ≡ beside_a_malformed_head_at_3_answers }
    ensures beside_an_unknown_stream_at_3 { as_lists (answers beside_an_unknown_stream_at_3_endpoint beside_an_unknown_stream_at_3)
        ≡ beside_an_unknown_stream_at_3_answers }
    ensures beside_a_cancellation_at_3 { as_lists (answers beside_a_cancellation_at_3_endpoint beside_a_cancellation_at_3)
        ≡ beside_a_cancellation_at_3_answers }
    ensures beside_settings_at_3 { as_lists (answers beside_settings_at_3_endpoint beside_settings_at_3) ≡ beside_settings_at_3_answers }
    ensures beside_all_of_them_at_3 { as_lists (answers beside_all_of_them_at_3_endpoint beside_all_of_them_at_3)
        ≡ beside_all_of_them_at_3_answers }
    ensures beside_a_malformed_head_at_4 { as_lists (answers beside_a_malformed_head_at_4_endpoint beside_a_malformed_head_at_4)
        ≡ beside_a_malformed_head_at_4_answers }
    ensures beside_an_unknown_stream_at_4 { as_lists (answers beside_an_unknown_stream_at_4_endpoint beside_an_unknown_stream_at_4)
        ≡ beside_an_unknown_stream_at_4_answers }
    ensures beside_a_cancellation_at_4 { as_lists (answers beside_a_cancellation_at_4_endpoint beside_a_cancellation_at_4)
        ≡ beside_a_cancellation_at_4_answers }
    ensures beside_settings_at_4 { as_lists (answers beside_settings_at_4_endpoint beside_settings_at_4) ≡ beside_settings_at_4_answers }
    ensures beside_all_of_them_at_4 { as_lists (answers beside_all_of_them_at_4_endpoint beside_all_of_them_at_4)
        ≡ beside_all_of_them_at_4_answers }
{}

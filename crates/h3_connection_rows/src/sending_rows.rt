//! Worked rows of content that is sent (RFC 9114, section 4.1.2).
ghost use Rattle.std.specs.Prelude.{◌≡◌};
ghost use Rattle.h3_connection.specs.CallLists.{answers};
ghost use Rattle.h3_connection_rows.specs.Worked.{as_lists};
ghost use Rattle.h3_connection_rows.specs.SendingRows.{strict_client, plain_client, strict_server, request_counted};
ghost use Rattle.h3_connection_rows.specs.SendingRows.{request_counted_answers, request_uncounted_answers, tunnel_and_reset};
ghost use Rattle.h3_connection_rows.specs.SendingRows.{tunnel_and_reset_answers, response_counted, response_counted_answers};
ghost use Rattle.h3_connection_rows.specs.SendingRows.{answered_early, answered_early_answers};

/// What a strict endpoint sends is as long as its header section says, and what another one sends is not counted. A server that does not
/// know what was asked sends no trailer after 2xx.
pub fn sending_rows_compute()
    ensures request { answers strict_client request_counted ≡ request_counted_answers }
    ensures uncounted { answers plain_client request_counted ≡ request_uncounted_answers }
    ensures tunnel { answers strict_client tunnel_and_reset ≡ tunnel_and_reset_answers }
    ensures response { as_lists (answers strict_server response_counted) ≡ response_counted_answers }
    ensures early { as_lists (answers strict_server answered_early) ≡ answered_early_answers }
{}

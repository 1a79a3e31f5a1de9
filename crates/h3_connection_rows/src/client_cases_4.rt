//! Hostile lists of calls of a client. Made by scripts/gate/connection_cases.py.

ghost use Rattle.std.specs.Prelude.{◌≡◌};
ghost use Rattle.h3_connection.specs.CallLists.{answers};
ghost use Rattle.h3_connection_rows.specs.Worked.{as_lists};
ghost use Rattle.h3_connection_rows.specs.ClientCases4.{case_16_endpoint, case_16, case_16_answers, case_17_endpoint, case_17};
ghost use Rattle.h3_connection_rows.specs.ClientCases4.{case_17_answers, case_18_endpoint, case_18, case_18_answers, case_19_endpoint};
ghost use Rattle.h3_connection_rows.specs.ClientCases4.{case_19, case_19_answers, case_20_endpoint, case_20, case_20_answers};

/// They are answered as the model answers them.
pub fn client_cases_4_compute()
    ensures case_16 { as_lists (answers case_16_endpoint case_16) ≡ case_16_answers }
    ensures case_17 { as_lists (answers case_17_endpoint case_17) ≡ case_17_answers }
    ensures case_18 { as_lists (answers case_18_endpoint case_18) ≡ case_18_answers }
    ensures case_19 { as_lists (answers case_19_endpoint case_19) ≡ case_19_answers }
    ensures case_20 { as_lists (answers case_20_endpoint case_20) ≡ case_20_answers }
{}

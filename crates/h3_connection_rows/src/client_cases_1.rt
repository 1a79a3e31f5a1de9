//! Hostile lists of calls of a client. Made by scripts/gate/connection_cases.py.

ghost use Rattle.std.specs.Prelude.{◌≡◌};
ghost use Rattle.h3_connection.specs.CallLists.{answers};
ghost use Rattle.h3_connection_rows.specs.Worked.{as_lists};
ghost use Rattle.h3_connection_rows.specs.ClientCases1.{case_1_endpoint, case_1, case_1_answers, case_2_endpoint, case_2, case_2_answers};
ghost use Rattle.h3_connection_rows.specs.ClientCases1.{case_3_endpoint, case_3, case_3_answers, case_4_endpoint, case_4, case_4_answers};
ghost use Rattle.h3_connection_rows.specs.ClientCases1.{case_5_endpoint, case_5, case_5_answers};

/// They are answered as the model answers them.
pub fn client_cases_1_compute()
    ensures case_1 { as_lists (answers case_1_endpoint case_1) ≡ case_1_answers }
    ensures case_2 { as_lists (answers case_2_endpoint case_2) ≡ case_2_answers }
    ensures case_3 { as_lists (answers case_3_endpoint case_3) ≡ case_3_answers }
    ensures case_4 { as_lists (answers case_4_endpoint case_4) ≡ case_4_answers }
    ensures case_5 { as_lists (answers case_5_endpoint case_5) ≡ case_5_answers }
{}

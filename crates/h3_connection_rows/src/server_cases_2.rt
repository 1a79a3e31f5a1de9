//! Hostile lists of calls of a server. Made by scripts/gate/connection_cases.py.

ghost use Rattle.std.specs.Prelude.{◌≡◌};
ghost use Rattle.h3_connection.specs.CallLists.{answers};
ghost use Rattle.h3_connection_rows.specs.Worked.{as_lists};
ghost use Rattle.h3_connection_rows.specs.ServerCases2.{case_6_endpoint, case_6, case_6_answers, case_7_endpoint, case_7, case_7_answers};
ghost use Rattle.h3_connection_rows.specs.ServerCases2.{case_8_endpoint, case_8, case_8_answers, case_9_endpoint, case_9, case_9_answers};
ghost use Rattle.h3_connection_rows.specs.ServerCases2.{case_10_endpoint, case_10, case_10_answers};

/// They are answered as the model answers them.
pub fn server_cases_2_compute()
    ensures case_6 { as_lists (answers case_6_endpoint case_6) ≡ case_6_answers }
    ensures case_7 { as_lists (answers case_7_endpoint case_7) ≡ case_7_answers }
    ensures case_8 { as_lists (answers case_8_endpoint case_8) ≡ case_8_answers }
    ensures case_9 { as_lists (answers case_9_endpoint case_9) ≡ case_9_answers }
    ensures case_10 { as_lists (answers case_10_endpoint case_10) ≡ case_10_answers }
{}

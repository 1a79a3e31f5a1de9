//! Hostile lists of calls of a server. Made by scripts/gate/connection_cases.py.

ghost use Rattle.std.specs.Prelude.{◌≡◌};
ghost use Rattle.h3_connection.specs.CallLists.{answers};
ghost use Rattle.h3_connection_rows.specs.Worked.{as_lists};
ghost use Rattle.h3_connection_rows.specs.ServerCases3.{case_11_endpoint, case_11, case_11_answers, case_12_endpoint, case_12};
ghost use Rattle.h3_connection_rows.specs.ServerCases3.{case_12_answers, case_13_endpoint, case_13, case_13_answers, case_14_endpoint};
ghost use Rattle.h3_connection_rows.specs.ServerCases3.{case_14, case_14_answers, case_15_endpoint, case_15, case_15_answers};

/// They are answered as the model answers them.
pub fn server_cases_3_compute()
    ensures case_11 { as_lists (answers case_11_endpoint case_11) ≡ case_11_answers }
    ensures case_12 { as_lists (answers case_12_endpoint case_12) ≡ case_12_answers }
    ensures case_13 { as_lists (answers case_13_endpoint case_13) ≡ case_13_answers }
    ensures case_14 { as_lists (answers case_14_endpoint case_14) ≡ case_14_answers }
    ensures case_15 { as_lists (answers case_15_endpoint case_15) ≡ case_15_answers }
{}

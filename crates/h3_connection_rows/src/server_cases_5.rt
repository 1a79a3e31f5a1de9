//! Hostile lists of calls of a server. Made by scripts/gate/connection_cases.py.

ghost use Rattle.std.specs.Prelude.{◌≡◌};
ghost use Rattle.h3_connection.specs.CallLists.{answers};
ghost use Rattle.h3_connection_rows.specs.Worked.{as_lists};
ghost use Rattle.h3_connection_rows.specs.ServerCases5.{case_21_endpoint, case_21, case_21_answers, case_22_endpoint, case_22};
ghost use Rattle.h3_connection_rows.specs.ServerCases5.{case_22_answers, case_23_endpoint, case_23, case_23_answers, case_24_endpoint};
ghost use Rattle.h3_connection_rows.specs.ServerCases5.{case_24, case_24_answers, case_25_endpoint, case_25, case_25_answers};

/// They are answered as the model answers them.
pub fn server_cases_5_compute()
    ensures case_21 { as_lists (answers case_21_endpoint case_21) ≡ case_21_answers }
    ensures case_22 { as_lists (answers case_22_endpoint case_22) ≡ case_22_answers }
    ensures case_23 { as_lists (answers case_23_endpoint case_23) ≡ case_23_answers }
    ensures case_24 { as_lists (answers case_24_endpoint case_24) ≡ case_24_answers }
    ensures case_25 { as_lists (answers case_25_endpoint case_25) ≡ case_25_answers }
{}

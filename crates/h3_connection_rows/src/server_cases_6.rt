//! Hostile lists of calls of a server. Made by scripts/gate/connection_cases.py.

ghost use Rattle.std.specs.Prelude.{◌≡◌};
ghost use Rattle.h3_connection.specs.CallLists.{answers};
ghost use Rattle.h3_connection_rows.specs.Worked.{as_lists};
ghost use Rattle.h3_connection_rows.specs.ServerCases6.{case_26_endpoint, case_26, case_26_answers, case_27_endpoint, case_27};
ghost use Rattle.h3_connection_rows.specs.ServerCases6.{case_27_answers, case_28_endpoint, case_28, case_28_answers, case_29_endpoint};
ghost use Rattle.h3_connection_rows.specs.ServerCases6.{case_29, case_29_answers, case_30_endpoint, case_30, case_30_answers};

/// They are answered as the model answers them.
pub fn server_cases_6_compute()
    ensures case_26 { as_lists (answers case_26_endpoint case_26) ≡ case_26_answers }
    ensures case_27 { as_lists (answers case_27_endpoint case_27) ≡ case_27_answers }
    ensures case_28 { as_lists (answers case_28_endpoint case_28) ≡ case_28_answers }
    ensures case_29 { as_lists (answers case_29_endpoint case_29) ≡ case_29_answers }
    ensures case_30 { as_lists (answers case_30_endpoint case_30) ≡ case_30_answers }
{}

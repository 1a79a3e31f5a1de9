//! Worked rows of settings that have no meaning here (RFC 9114, section 7.2.4).
ghost use Rattle.std.specs.Prelude.{◌≡◌, ◌^◌, [], ◌∷◌, codes, true, false, Some, None, Err};
ghost use Rattle.h3_proto.specs.Remembered.{keeps_to};
ghost use Rattle.h3_proto.specs.declared.frame.SettingsError.TheVariants.{Exceeded, InvalidSettingId, InvalidSettingValue, Repeated};
ghost use Rattle.h3_connection.specs.Remembering.{settings_known};
ghost use Rattle.h3_connection.specs.declared.event.Refusal.TheVariants.{Connection};
ghost use Rattle.h3_connection_rows.specs.SettingRows.{begins, beside, keeping, resumed, shown, shown_apart, told};
ghost use Rattle.h3_connection_rows.specs.Worked.{hex};

/// Which of the peer's are kept, which further ones an endpoint announces, and what those that come keep to that were remembered.
pub fn setting_rows_compute()
    ensures unasked { shown 0 (codes "000403409907") 0x99 ≡ None }
    ensures kept { shown 1 (codes "000403409907") 0x99 ≡ Some 7 }
    ensures in_two_pieces { shown_apart 1 (codes "00040340") (codes "9907") 0x99 ≡ Some 7 }
    ensures behind_an_unknown_frame { shown 1 (codes "000e00040340990721010c") 0x99 ≡ Some 7 }
    ensures behind_half_an_unknown_frame { shown_apart 1 (codes "000e0361") (codes "6263040340990721010c") 0x99 ≡ Some 7 }
    ensures known { shown 1 (codes "00040607456440990f") 7 ≡ Some 1380 }
    ensures reserved { shown 5 (codes "0004022103") 0x21 ≡ None }
    ensures first_of_two { shown 5 (codes "000406409907409908") 0x99 ≡ Some 7 }
    ensures second_counts { shown 2 (codes "000409409907409908409a01") 0x9a ≡ None }
    ensures third { shown 3 (codes "000409409907409908409a01") 0x9a ≡ Some 1 }
    ensures of_another_frame { told 1 (codes "000701000403409907") ≡ Some (Connection 0x10a) }
    ensures malformed { told 1 (codes "00040440990740") ≡ Some (Connection 0x106) }
    ensures not_kept_of_malformed { shown 1 (codes "00040440990740") 0x99 ≡ None }
    ensures further { begins ((0xc671706a, 16) ∷ []) ≡ hex
        (codes "00042106800100000800ab603742003300ab603743000150000710c0000000c671706a10") }
    ensures no_further { begins [] ≡ hex (codes "00041806800100000800ab603742003300ab603743000150000710") }
    ensures of_http2 { beside ((0x99, 1) ∷ (2, 1) ∷ []) ≡ Err (InvalidSettingId 2) }
    ensures with_a_meaning { beside ((6, 1) ∷ []) ≡ Err (Repeated 6) }
    ensures twice { beside ((0x99, 1) ∷ (0x99, 1) ∷ []) ≡ Err (Repeated 0x99) }
    ensures wide { beside ((0x99, 2 ^ 62) ∷ []) ≡ Err (InvalidSettingValue 0x99 (2 ^ 62)) }
    ensures ninth { beside ((0x90, 0) ∷ (0x91, 0) ∷ (0x92, 0) ∷ (0x93, 0) ∷ (0x94, 0) ∷ (0x95, 0) ∷ (0x96, 0) ∷ (0x97, 0) ∷ (0x98, 0) ∷ [])
        ≡ Err Exceeded }
    ensures keeps { keeps_to ((6, 1000) ∷ (8, 1) ∷ []) ((8, 1) ∷ (6, 1000) ∷ []) ≡ true }
    ensures allows_more { keeps_to ((6, 1000) ∷ (7, 2) ∷ []) ((6, 1001) ∷ (7, 3) ∷ (8, 1) ∷ []) ≡ true }
    ensures allows_less { keeps_to ((6, 1000) ∷ []) ((6, 999) ∷ []) ≡ false }
    ensures is_gone { keeps_to ((6, 1000) ∷ []) [] ≡ false }
    ensures limits_now { keeps_to [] ((6, 1000) ∷ []) ≡ false }
    ensures default_is_gone { keeps_to ((8, 0) ∷ (7, 0) ∷ []) [] ≡ true }
    ensures another_table { keeps_to ((1, 4096) ∷ []) ((1, 4097) ∷ []) ≡ false }
    ensures a_table_now { keeps_to ((1, 0) ∷ []) ((1, 4096) ∷ []) ≡ true }
    ensures remembered { settings_known resumed None ≡ Some ((6, 100) ∷ []) }
    ensures those_that_came { settings_known resumed (Some ((6, 200) ∷ [])) ≡ Some ((6, 200) ∷ []) }
    ensures remembers_none { settings_known (keeping 0) None ≡ None }
{}

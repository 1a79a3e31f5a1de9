//! What holds of scripts. These functions do nothing: their contracts are the laws.
ghost use Rattle.std.specs.Prelude.{◌≡◌, ℕ, ◌^◌, List};
ghost use Rattle.h3_script.specs.Small.{ArePlain, AreSmall};
ghost use Rattle.h3_world.specs.Setup.{Setup as Made};
ghost use Rattle.h3_script.specs.Script.{IsScript, RefusesLine};
ghost use Rattle.h3_world.specs.declared.event.Event.{Event as Does};

/// No line of a script is refused.
pub fn no_line_of_a_script_is_refused()
    ensures { (most : ℕ) (text : List ℕ) (setup : Made) (events : List Does) (number : ℕ) → IsScript most text setup events
        → RefusesLine most text number → ⊥ }
{}

/// A text is refused at one line.
pub fn a_text_is_refused_at_one_line()
    ensures { (most : ℕ) (text : List ℕ) (m n : ℕ) → RefusesLine most text m → RefusesLine most text n → m ≡ n }
{}

/// A script has one setup and one list of events.
pub fn a_script_is_read_in_one_way()
    ensures { (most : ℕ) (text : List ℕ) (s t : Made) (xs ys : List Does) → IsScript most text s xs → IsScript most text t ys
        → (s ≡ t) × (xs ≡ ys) }
{}

/// A script of at most 2^48 bytes sends no section or body of 2^56 bytes or more.
pub fn a_script_has_small_events()
    ensures { (text : List ℕ) (setup : Made) (events : List Does) → IsScript (2 ^ 48) text setup events → AreSmall events }
{}

/// A script asks for no strict messages, and for no limit on what is unfinished. It names no `:protocol`.
pub fn a_script_judges_plainly()
    ensures { (most : ℕ) (text : List ℕ) (setup : Made) (events : List Does) → IsScript most text setup events → ArePlain setup events }
{}

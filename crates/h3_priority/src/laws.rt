//! What holds of the values of a `priority` field. These functions do nothing: their contracts are the laws.
ghost use Rattle.std.specs.Prelude.{◌≡◌, ◌≤◌, Some};
ghost use Rattle.h3_priority.specs.Priority.{PriorityParameters, priority_of, value_that_says};
ghost use Rattle.h3_priority.specs.Rows.{RowsHold};

/// What is written of a priority reads back as it.
#[tactic(auto, using(crate::proofs::ReadsBack::reads_back))]
pub fn reads_back()
    ensures { (p : PriorityParameters) → p.urgency ≤ 7 → priority_of (value_that_says p) ≡ Some p }
{}

/// Texts say the priorities that the standards give them, and those that are no dictionaries say none.
#[tactic(auto, using(crate::proofs::RowsHold::rows_hold))]
pub fn rows_hold()
    ensures { RowsHold }
{}

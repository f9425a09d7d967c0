//! Nine worked rows, in one table with one proof.
#![tactic(auto)]

ghost use Rattle.worked.specs.Rows.{AllHold, table};

/// What the definitions give for numbers that can be followed by hand. This function only carries
/// the theorem.
pub fn worked_rows()
    ensures { AllHold table }
{}

ghost use Rattle.std.specs.Prelude.{◌≡◌, ◌^◌, ◌≤◌, ℤ, ℕ, List, Ok, unsigned_abs};
ghost use Rattle.fixed_num.specs.Numbers.{IsValue};
ghost use Rattle.line_text.specs.PrintedForm.{IsShortTextOf};
ghost use Rattle.line_text.specs.Printing.{value_text};
ghost use Rattle.line_text.specs.Reading.{reading};
ghost use Rattle.line_text.specs.Spelling.{Spelling, Spells};

/// What is printed reads back as the same number. A law, which the prover checks; the call does
/// nothing.
pub fn printed_reads_back()
    ensures { (units : ℤ) → IsValue units → reading (value_text units) ≡ Ok units }
{}

/// What is printed of a number spells it without a needless sign or digit, and no other text does.
/// A law, which the prover checks; the call does nothing.
pub fn one_printed_form()
    ensures printed { (units : ℤ) → unsigned_abs units ≤ 2 ^ 127
        → IsShortTextOf units (value_text units) }
    ensures only { (units : ℤ) (text : List ℕ) → unsigned_abs units ≤ 2 ^ 127
        → IsShortTextOf units text → text ≡ value_text units }
{}

/// A text spells one number. A law, which the prover checks; the call does nothing.
pub fn one_spelling()
    ensures { (s t : Spelling) (text : List ℕ) → Spells s text → Spells t text → s ≡ t }
{}

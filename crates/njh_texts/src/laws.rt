//! Laws of the definitions. Each function does nothing: its contract is the law.

ghost use Rattle.std.specs.Prelude.{◌<◌, ◌^◌, ℕ};
ghost use Rattle.njh_ebcdic.specs.Names.{digits};
ghost use Rattle.njh_texts.specs.Decimals.{IsDecimal};

/// The digits of a number say it, and begin with no zero but where it is the only one.
pub fn decimal_digits()
    ensures { (number : ℕ) → number < 2 ^ 32 → IsDecimal (digits number) number }
{}

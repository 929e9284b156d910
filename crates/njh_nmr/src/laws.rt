//! Laws of the definitions that the contracts cite. A caller has one by calling its function.

ghost use Rattle.std.specs.Prelude.{◌≡◌, ◌++◌, ℕ, List, Ok};
ghost use Rattle.njh_nmr.specs.Nodal.{Nodal, IsMessage, record_of, cut_after_message, nodal_of};

/// What is written reads back as the same message, whatever comes after it.
pub fn reading_back()
    ensures { (n : Nodal) (behind : List ℕ) → IsMessage n → nodal_of (record_of n ++ behind) ≡ Ok n }
{}

/// What was read is written as it came, without what came after the message.
pub fn sending_on()
    ensures bytes { (bytes : List ℕ) (n : Nodal) → nodal_of bytes ≡ Ok n → record_of n ≡ cut_after_message bytes }
    ensures whole { (bytes : List ℕ) (n : Nodal) → nodal_of bytes ≡ Ok n → IsMessage n }
{}

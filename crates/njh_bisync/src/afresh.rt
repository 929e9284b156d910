//! The law of `reset`, the contract of a function that does nothing.
ghost use Rattle.std.specs.Prelude.{◌≡◌, ℕ, List, ◌∷◌, ◌++◌, map};
ghost use Rattle.njh_bisync.specs.Frames.{Received};
ghost use Rattle.njh_bisync.specs.Reading.{Rest, Nothing, Reads};
ghost use Rattle.njh_bisync.specs.Calls.{Call, Feed, Reset, taken_by, given_by, left_by};

/// After `reset` the frames that are given are those of the bytes that are taken from then on, and
/// of these alone: whatever was fed before, and whatever pieces they are fed in.
///
/// If each piece is fed on until it is used, the bytes that are taken are the pieces, one after
/// another.
pub fn reset_begins_afresh()
    // Nothing that was called before the last `reset` makes a difference.
    ensures given { (rest : Rest) (before : List Call) (pieces : List (List ℕ))
        → given_by rest (before ++ Reset ∷ map Feed pieces)
        ≡ given_by rest before ++ given_by Nothing (map Feed pieces) }
    ensures left { (rest : Rest) (before : List Call) (pieces : List (List ℕ))
        → left_by rest (before ++ Reset ∷ map Feed pieces) ≡ left_by Nothing (map Feed pieces) }

    // By the grammar, the frames of the bytes that were taken since then.
    ensures reads { (pieces : List (List ℕ)) → let calls = map Feed pieces in
        Reads (taken_by Nothing calls) (given_by Nothing calls) (left_by Nothing calls) }
    ensures only { (pieces : List (List ℕ)) (frames : List Received) (rest : Rest)
        → Reads (taken_by Nothing (map Feed pieces)) frames rest
        → (frames ≡ given_by Nothing (map Feed pieces)) × (rest ≡ left_by Nothing (map Feed pieces)) }

    // So any two cuttings of the same bytes give the same.
    ensures cut { (pieces others : List (List ℕ))
        → taken_by Nothing (map Feed pieces) ≡ taken_by Nothing (map Feed others)
        → (given_by Nothing (map Feed pieces) ≡ given_by Nothing (map Feed others))
        × (left_by Nothing (map Feed pieces) ≡ left_by Nothing (map Feed others)) }
{}

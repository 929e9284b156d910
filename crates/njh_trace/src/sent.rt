//! What the frames say that a hub sends.

ghost use Rattle.std.specs.Prelude.{◌≡◌, Bool, List, ℕ, flat_map};
ghost use Rattle.std.specs.List.{AllByRecursion};
ghost use Rattle.njh_trace.specs.Trace.{sent_text, sent_told, trace_told, IsSent};

/// The trace that is printed of frames says what each of them says alone, one after the other.
pub fn sent_one_by_one()
    ensures { (hex : Bool) (sent : List (List ℕ × List ℕ)) → AllByRecursion (λ s. IsSent s.0 s.1) sent
        → trace_told hex (sent_text sent) ≡ flat_map (λ s. sent_told hex s.0 s.1) sent }
{}

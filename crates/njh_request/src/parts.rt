//! What a mark parts.

ghost use Rattle.std.specs.Prelude.{◌≡◌, ◌∷◌};
ghost use Rattle.njh_request.specs.Paths.{parts_behind, parts_of};

/// What comes before the first stroke of a path, or all; and what comes after it.
pub(crate) fn first_part(path: &str) -> (&str, Option<&str>)
    ensures { parts_of path.now ≡ result.0.now ∷ parts_behind result.1 }
{
    match path.split_once('/') {
        Some((part, behind)) => (part, Some(behind)),
        None => (path, None),
    }
}

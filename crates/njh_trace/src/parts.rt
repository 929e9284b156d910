//! Parts of a text.

ghost use Rattle.std.specs.Prelude.{◌≡◌, ◌==◌, ◌<◌, ◌∷◌, ◌++◌, [], length, false, All, MatchOption, IfSome, bytes_eq};
ghost use Rattle.std.specs.List.{slice_split};

use memchr::memchr;

/// What comes before the first of a byte in a text and what comes after it, or nothing if the
/// byte isn't there.
pub(crate) fn parted(text: &[u8], byte: u8) -> Option<(&[u8], &[u8])>
    ensures parts { MatchOption result (All (λ b. (b == byte) ≡ false) text.now)
        (λ parts. (text.now ≡ parts.0.now ++ byte ∷ parts.1.now) × All (λ b. (b == byte) ≡ false) parts.0.now) }
    ensures split { MatchOption result (slice_split (λ b. b == byte) text.now ≡ text.now ∷ [])
        (λ parts. slice_split (λ b. b == byte) text.now ≡ parts.0.now ∷ slice_split (λ b. b == byte) parts.1.now) }
    ensures shorter { IfSome result (λ parts. length parts.1.now < length text.now) }
{
    match memchr(byte, text) {
        None => None,
        Some(place) => {
            let (front, end) = text.split_at(place);
            let (_, behind) = end.split_at(1);
            Some((front, behind))
        }
    }
}

/// Whether a text is these two parts.
pub(crate) fn has_parts(text: &[u8], front: &[u8], back: &[u8]) -> bool
    ensures { result ≡ bytes_eq text.now (front.now ++ back.now) }
{
    match text.strip_prefix(front) {
        Some(rest) => rest == back,
        None => false,
    }
}

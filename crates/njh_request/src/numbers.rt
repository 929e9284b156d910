//! Numbers in a path and behind it.

ghost use Rattle.std.specs.Prelude.{◌≡◌, ◌≤◌, true, length, option_map};
ghost use Rattle.std.specs.List.{list_all};
ghost use Rattle.njh_ebcdic.specs.Names.{within};
ghost use Rattle.njh_request.specs.Paths.{number_in, place_in, value_behind};

/// How many digits a number has at most.
const MAX_DIGITS: usize = 18;

/// What stands before the place to go on from.
const FROM: &str = "from=";

/// The place to go on from that a query names; 0 without a query.
pub(crate) fn place_in(query: Option<&str>) -> Option<u64>
    ensures { result ≡ place_in (option_map (λ text. text.now) query.entry) }
{
    match query {
        Some(query) => place_of(query.as_bytes()),
        None => Some(0),
    }
}

/// The place that stands behind its word.
fn place_of(query: &[u8]) -> Option<u64>
    ensures { result ≡ place_in (Some query.now) }
{
    if query.len() < FROM.len() {
        return None;
    }
    let (word, number) = query.split_at(FROM.len());
    if word == FROM.as_bytes() {
        number_in(number)
    } else {
        None
    }
}

/// The number that 1 to 18 digits are.
pub(crate) fn number_in(text: &[u8]) -> Option<u64>
    ensures { result ≡ number_in text.now }
{
    if text.is_empty() || text.len() > MAX_DIGITS || !are_digits(text) {
        return None;
    }
    Some(value_of(text))
}

fn are_digits(text: &[u8]) -> bool
    ensures { result ≡ list_all (within 48 57) text.now }
{
    text.iter().all(|byte| matches!(*byte, b'0'..=b'9'))
}

/// The number that at most 18 digits say.
fn value_of(digits: &[u8]) -> u64
    requires few { length digits.now ≤ 18 }
    requires digits { list_all (within 48 57) digits.now ≡ true }
    ensures { result ≡ value_behind 0 digits.now }
{
    let mut value = 0;
    for digit in digits {
        value = 10 * value + u64::from(*digit - b'0');
    }
    value
}

//! Texts that are compared.

/// The number of the first line in which two texts differ, if they do.
pub fn first_difference(text: &[u8], wanted: &[u8]) -> Option<u64> {
    if text == wanted {
        return None;
    }
    let mut number = 1u64;
    for (byte, other) in text.iter().zip(wanted) {
        if byte != other {
            break;
        }
        if *byte == b'\n' {
            number = number.saturating_add(1);
        }
    }
    Some(number)
}

/// The number of the first line, of those that have a count and words, whose words aren't so
/// often in a text.
pub fn first_miscount(text: &[u8], wanted: &[u8]) -> Option<u64> {
    let mut number = 1u64;
    for line in wanted.split_inclusive(|byte| *byte == b'\n') {
        if !is_counted_so(text, line) {
            return Some(number);
        }
        number = number.saturating_add(1);
    }
    None
}

/// Whether a text has the words of a line as often as its count says.
fn is_counted_so(text: &[u8], line: &[u8]) -> bool {
    let Some((count, words)) = str::from_utf8(line)
        .ok()
        .and_then(|line| line.trim_end().split_once(' '))
    else {
        return false;
    };
    count.parse::<u64>().ok() == Some(times(text, words.as_bytes()))
}

/// How often a text has words.
fn times(text: &[u8], words: &[u8]) -> u64 {
    let mut times = 0u64;
    for start in 0..text.len() {
        let (_, left) = text.split_at(start);
        if left.starts_with(words) {
            times = times.saturating_add(1);
        }
    }
    times
}

//! What lines of words are made of.

ghost use Rattle.std.specs.Prelude.{◌≡◌, ◌≤◌, ◌++◌, length, OnOk};
ghost use Rattle.hex.specs.Hex.{encode_lower};
ghost use Rattle.njh_decode.specs.Words.{byte_words, digit, label, number_words, stream_words};

use njh_block::Rcb;
use std::alloc::AllocError;

/// Appends bytes.
pub(crate) fn put(line: &mut Vec<u8>, bytes: &[u8]) -> Result<(), AllocError>
    ensures { OnOk result (line.new.items ≡ line.old.items ++ bytes.now) }
{
    line.extend_from_slice(bytes)
}

/// Appends words.
#[tactic(auto, unfolding(crate::specs::Words::label))]
pub(crate) fn put_words(line: &mut Vec<u8>, words: &str) -> Result<(), AllocError>
    ensures { OnOk result (line.new.items ≡ line.old.items ++ label words.now) }
{
    put(line, words.as_bytes())
}

/// The last decimal digit of a number.
fn digit(number: u16) -> u8
    ensures { result ≡ digit number }
{
    b'0' + (number % 10) as u8
}

/// Appends a number in decimal digits.
#[tactic(auto, unfolding(crate::specs::Words::number_words))]
pub(crate) fn put_number(line: &mut Vec<u8>, number: u16) -> Result<(), AllocError>
    ensures { OnOk result (line.new.items ≡ line.old.items ++ number_words number) }
{
    let ones = digit(number);
    let tens = digit(number / 10);
    let hundreds = digit(number / 100);
    let thousands = digit(number / 1000);
    if number < 10 {
        put(line, &[ones])
    } else if number < 100 {
        put(line, &[tens, ones])
    } else if number < 1000 {
        put(line, &[hundreds, tens, ones])
    } else if number < 10000 {
        put(line, &[thousands, hundreds, tens, ones])
    } else {
        put(
            line,
            &[digit(number / 10000), thousands, hundreds, tens, ones],
        )
    }
}

/// Appends bytes in hexadecimal.
pub(crate) fn put_hex(line: &mut Vec<u8>, bytes: &[u8]) -> Result<(), AllocError>
    requires { length bytes.now ≤ 256 }
    ensures { OnOk result (line.new.items ≡ line.old.items ++ encode_lower bytes.now) }
{
    let mut digits = [0; 512];
    let text = &mut digits[..2 * bytes.len()];
    hex::encode_to_slice(bytes, text).unwrap();
    put(line, text)
}

/// Appends a byte in hexadecimal.
#[tactic(auto, unfolding(crate::specs::Words::byte_words))]
pub(crate) fn put_byte(line: &mut Vec<u8>, byte: u8) -> Result<(), AllocError>
    ensures { OnOk result (line.new.items ≡ line.old.items ++ byte_words byte) }
{
    put_hex(line, &[byte])
}

/// Appends the name of the stream whose RCB a byte is, or the byte.
#[tactic(auto, unfolding(crate::specs::Words::stream_words))]
pub(crate) fn put_stream(line: &mut Vec<u8>, rcb: u8) -> Result<(), AllocError>
    ensures { OnOk result (line.new.items ≡ line.old.items ++ stream_words rcb) }
{
    match (Rcb { byte: rcb }).stream_number() {
        None => {
            put_words(line, "RCB ")?;
            put_byte(line, rcb)
        }
        Some(number) => {
            let kind = if rcb % 16 == 8 { "SYSIN " } else { "SYSOUT " };
            put_words(line, kind)?;
            put_number(line, u16::from(number) + 1)
        }
    }
}

/// Appends words and a number.
pub(crate) fn put_numbered(line: &mut Vec<u8>, words: &str, number: u16) -> Result<(), AllocError>
    ensures { OnOk result (line.new.items ≡ line.old.items ++ label words.now ++ number_words number) }
{
    put_words(line, words)?;
    put_number(line, number)
}

/// Appends words, and more words.
pub(crate) fn put_both(line: &mut Vec<u8>, words: &str, more: &str) -> Result<(), AllocError>
    ensures { OnOk result (line.new.items ≡ line.old.items ++ label words.now ++ label more.now) }
{
    put_words(line, words)?;
    put_words(line, more)
}

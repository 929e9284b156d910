//! The pieces that texts are put together of.

ghost use Rattle.std.specs.Prelude.{◌≡◌, ◌+◌, ◌≤◌, ◌++◌, drop, length, take, IsTrue};
ghost use Rattle.std.specs.List.{list_all};
ghost use Rattle.njh_ebcdic.specs.Characters.{is_plain};
ghost use Rattle.njh_ebcdic.specs.Names.{digits, ebcdic, without_end_blanks};
ghost use Rattle.njh_texts.specs.Texts.{file_name as name_text};

use arrayvec::ArrayVec;
use njh_ebcdic::{BLANK, plain_byte};
use njh_header::FileName;
use njh_nmr::LONGEST_MESSAGE;
use njh_record::put_bytes;

/// The message of a nodal message record, in EBCDIC.
pub type MessageText = ArrayVec<u8, LONGEST_MESSAGE>;

/// What stands between the node and the number of a file's name.
const FULL_STOP: u8 = 0x4b;

/// The digit 0. The others follow it.
const ZERO: u8 = 0xf0;

/// Appends capital letters, digits, full stops and blanks.
pub fn push_ascii(text: &mut MessageText, ascii: &str)
    requires room { length text.old.items + length ascii.now ≤ LONGEST_MESSAGE }
    requires known { IsTrue (list_all is_plain ascii.now) }
    ensures { text.new.items ≡ text.old.items ++ ebcdic ascii.now }
{
    for character in ascii.as_bytes() {
        text.push(plain_byte(*character));
    }
}

/// Appends a field without the blanks behind it.
#[tactic(auto, using(crate::proofs::TextLemmas::trimmed_size))]
pub fn push_trimmed(text: &mut MessageText, field: &[u8; 8])
    requires { length text.old.items + 8 ≤ LONGEST_MESSAGE }
    ensures text { text.new.items ≡ text.old.items ++ without_end_blanks field.now }
    ensures few { length text.new.items ≤ length text.old.items + 8 }
{
    let front = half_at(field, 0);
    let back = half_at(field, 4);
    if back == [BLANK; 4] {
        push_trimmed_half(text, front);
    } else {
        put_bytes(text, &front);
        push_trimmed_half(text, back);
    }
}

/// Half a field.
fn half_at(field: &[u8; 8], place: usize) -> [u8; 4]
    requires { place ≤ 4 }
    ensures { result ≡ take 4 (drop place field.now) }
{
    let mut half = [BLANK; 4];
    half.copy_from_slice(&field[place..place + 4]);
    half
}

/// Appends half a field without the blanks behind it.
fn push_trimmed_half(text: &mut MessageText, half: [u8; 4])
    requires { length text.old.items + 4 ≤ LONGEST_MESSAGE }
    ensures { text.new.items ≡ text.old.items ++ without_end_blanks half }
{
    let [first, second, third, fourth] = half;
    if fourth != BLANK {
        put_bytes(text, &half);
    } else if third != BLANK {
        put_bytes(text, &[first, second, third]);
    } else if second != BLANK {
        put_bytes(text, &[first, second]);
    } else if first != BLANK {
        text.push(first);
    }
}

/// Appends a number in decimal digits, with no leading zeros.
#[tactic(auto, using(crate::proofs::TextLemmas::digit_steps))]
pub fn push_digits(text: &mut MessageText, number: u32)
    requires { length text.old.items + 10 ≤ LONGEST_MESSAGE }
    ensures text { text.new.items ≡ text.old.items ++ digits number }
    ensures few { length text.new.items ≤ length text.old.items + 10 }
{
    if number < 10 {
        text.push(ZERO + number as u8);
    } else if number < 100 {
        put_bytes(
            text,
            &[ZERO + (number / 10) as u8, ZERO + (number % 10) as u8],
        );
    } else {
        push_each_digit(text, number);
    }
}

#[tactic(auto, using(crate::proofs::TextLemmas::digit_steps))]
fn push_each_digit(text: &mut MessageText, number: u32)
    requires { length text.old.items + length (digits number) ≤ LONGEST_MESSAGE }
    ensures { text.new.items ≡ text.old.items ++ digits number }
{
    if number >= 10 {
        push_each_digit(text, number / 10);
    }
    text.push(ZERO + (number % 10) as u8);
}

/// Appends a file's name: node, full stop, number.
pub fn push_file_name(text: &mut MessageText, name: FileName)
    requires { length text.old.items + 19 ≤ LONGEST_MESSAGE }
    ensures text { text.new.items ≡ text.old.items ++ name_text name }
    ensures few { length text.new.items ≤ length text.old.items + 19 }
{
    push_trimmed(text, &name.node.bytes());
    text.push(FULL_STOP);
    push_digits(text, u32::from(name.number));
}

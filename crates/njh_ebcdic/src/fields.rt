//! Fields of eight bytes: what makes one a name, and the blanks after it.

ghost use Rattle.std.specs.Prelude.{◌≡◌, ◌≤◌, length};
ghost use Rattle.std.specs.List.{list_all};
ghost use Rattle.njh_ebcdic.specs.Names.{is_name as names, is_name_byte as name_byte, padded_field, without_end_blanks};

/// What fills a field after its characters.
pub const BLANK: u8 = 0x40;

/// How many bytes a field has.
pub const FIELD: usize = 8;

/// The bytes without the blanks at their end. A user's field may hold any bytes, blanks among them.
pub fn trim_blanks(bytes: &[u8]) -> &[u8]
    ensures value { result.now ≡ without_end_blanks bytes.now }
    ensures len { length result.now ≤ length bytes.now }
{
    let mut rest = bytes;
    while let Some((last, front)) = rest.split_last()
        && *last == BLANK
    {
        rest = front;
    }
    rest
}

/// A word of at most eight bytes, with blanks after it: as it is in a field.
pub fn pad(word: &[u8]) -> [u8; FIELD]
    requires { length word.now ≤ 8 }
    ensures { result ≡ padded_field word.now }
{
    let mut field = [BLANK; FIELD];
    field[..word.len()].copy_from_slice(word);
    field
}

/// Whether the bytes are a name: eight, of which 1 to 8 are of a name and blanks follow.
pub fn is_name(field: &[u8]) -> bool
    ensures { result ≡ names field.now }
{
    let name = trim_blanks(field);
    field.len() == FIELD && !name.is_empty() && are_name_bytes(name)
}

/// Whether each of the bytes is one of a name.
pub fn are_name_bytes(bytes: &[u8]) -> bool
    ensures { result ≡ list_all name_byte bytes.now }
{
    bytes.iter().all(|byte| is_name_byte(*byte))
}

/// A to Z, 0 to 9, `$`, `#` and `@`.
pub fn is_name_byte(byte: u8) -> bool
    ensures { result ≡ name_byte byte }
{
    matches!(byte, 0xc1..=0xc9 | 0xd1..=0xd9 | 0xe2..=0xe9 | 0xf0..=0xf9 | 0x5b | 0x7b | 0x7c)
}

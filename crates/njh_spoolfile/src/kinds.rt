//! The words for kinds of files.

ghost use Rattle.std.specs.Prelude.{◌≡◌};
ghost use Rattle.njh_spoolfile.specs.Sent.{kind_of_word, kind_word};

use njh_record::Kind;

/// The word for a kind of file.
pub fn kind_word(kind: Kind) -> &'static str
    ensures { result.now ≡ kind_word kind }
{
    match kind {
        Kind::In => "SYSIN",
        Kind::Out => "SYSOUT",
    }
}

/// The kind of file that a word means.
pub fn kind_of_word(word: &str) -> Option<Kind>
    ensures { result ≡ kind_of_word word.now }
{
    if word == "SYSIN" {
        return Some(Kind::In);
    }
    if word == "SYSOUT" {
        return Some(Kind::Out);
    }
    None
}

//! Words that ask for a text, and are not refused.

ghost use Rattle.std.specs.Prelude.{◌≡◌, map};
ghost use Rattle.clap.specs.Words.{kind_of};
ghost use Rattle.njh_arguments.specs.Shown.{has_help, is_shown};

use clap::Error;
use clap::error::ErrorKind;
use std::convert::AsStr;

/// The version, which `--version` prints behind the program's name.
pub const VERSION: &str = "0.1.0";

/// Whether these arguments, of which `clap` says so, ask for a text and are not refused: for the
/// version, or for the help of a subcommand. Help of `replay`, or of the program alone, is a refusal.
pub fn is_shown<S: AsStr>(arguments: &[S], refusal: &Error) -> bool
    ensures { result ≡ is_shown (map S.text arguments.now) (kind_of refusal.now) }
{
    match refusal.kind() {
        ErrorKind::DisplayVersion => true,
        ErrorKind::DisplayHelp => match arguments.get(1) {
            Some(word) => has_help(word.as_str()),
            None => false,
        },
        _ => false,
    }
}

/// Whether a word is a subcommand whose help is printed.
fn has_help(word: &str) -> bool
    ensures { result ≡ has_help word.now }
{
    word == "serve"
        || word == "decode"
        || word == "encode"
        || word == "check"
        || word == "files"
        || word == "ctl"
}

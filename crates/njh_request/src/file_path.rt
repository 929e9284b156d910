//! Names of files.

ghost use Rattle.std.specs.Prelude.{◌≡◌, IfOk};
ghost use Rattle.njh_request.specs.FilePaths.{begins_with_stroke, is_path, path_of_text};

use std::alloc::{AllocError, Global};
use std::marker::Model;

/// How many bytes a path has at most.
const LONGEST: usize = 1_024;

/// The name of a file, from `/` on, of at most 1,024 bytes. A caller sees it as a list.
#[derive(Drop)]
pub struct FilePath {
    text: String,
}

impl Model for FilePath {
    ghost use Rattle.std.specs.Prelude.{List, ℕ, string_bytes};

    ghost Value = { List ℕ };

    ghost view = { λ path. string_bytes path.text };
}

impl FilePath {
    /// The path that a text is. Out of memory is the only refusal.
    pub(crate) fn of(alloc: Global, text: &str) -> Result<Option<FilePath>, AllocError>
        ensures { IfOk result (λ path. path ≡ path_of_text text.now) }
    {
        if !is_path(text.as_bytes()) {
            return Ok(None);
        }
        let text = String::from_str(alloc, text)?;
        Ok(Some(FilePath { text }))
    }

    /// The path.
    pub fn text(&self) -> &str
        ensures { result.now ≡ self.now }
    {
        self.text.as_str()
    }
}

fn is_path(text: &[u8]) -> bool
    ensures { result ≡ is_path text.now }
{
    begins_with_stroke(text) && text.len() <= LONGEST
}

fn begins_with_stroke(text: &[u8]) -> bool
    ensures { result ≡ begins_with_stroke text.now }
{
    match text {
        [first, ..] => *first == b'/',
        [] => false,
    }
}

//! A run that is tried.

/// A run that is tried.
#[derive(Clone, Copy)]
pub struct Trial<'a> {
    /// The words of the command line, of which the first is its name.
    pub words: &'a [&'a str],
    /// What the program is given to read.
    pub script: &'a [u8],
    /// Its whole output, as it is stored.
    pub output: &'a [u8],
}

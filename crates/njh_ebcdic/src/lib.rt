//! EBCDIC: names of nodes and users, and the characters that they are written in.
#![tactic(auto)]

mod characters;
mod code_page;
mod fields;
mod laws;
mod name;

pub use characters::{byte_of, fold_upper, plain_byte, text_of};
pub use code_page::{
    bytes_are_told, characters_agree, characters_are_seen, page_byte, put_characters,
};
pub use fields::{BLANK, FIELD, is_name, pad, trim_blanks};
pub use laws::{characters_and_bytes, folding, names_read_back, trimming};
pub use name::{Name, NameFault};

//! Lines in plain words, as lines of a script: so that nobody writes a script's bytes by hand.
//!
//! What is left of the colon is a line of the hub, and what is right of it comes on that
//! line. So these
//!
//!     a1: contact
//!     a1: sign on as LYON block 1024
//!     a1: request SYSOUT 1
//!
//! are three lines of `BYTES a1`. Blocks are counted for each line by itself.
#![tactic(auto)]

mod characters;
mod encoder;
mod fault;
mod laws;
mod letters;
mod line_states;
mod packing;
mod posted;
mod posting;
mod putting;
mod reading;
mod scripts;
mod sentences;
mod statement;
mod statements;
mod words;

pub use encoder::Encoder;
pub use fault::{EncodeEnd, EncodeFault, Reason};
pub use laws::{
    known_texts_settle, no_file_settles, packed_frames_read_back, packed_in_order,
    packed_reads_back,
};
pub use letters::{LetterFault, Letters};
pub use scripts::encode_script;

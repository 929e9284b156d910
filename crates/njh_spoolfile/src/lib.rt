//! Customers' whole files in a SQLite file.
#![tactic(auto)]

mod copying;
mod files;
mod kept;
mod kinds;
mod laws;
mod making;
mod marking;
mod opening;
mod origin;
mod packing;
mod reads;
mod sent;
mod statements;
mod store;
mod tables;
mod versions;

pub use copying::{CopyFault, copy_files};
pub use kept::{FileRow, GREATEST_ID, RecordRow, StoredFile, StoredRecord};
pub use kinds::{kind_of_word, kind_word};
pub use laws::{
    a_file_comes_last, a_file_keeps_its_place, a_file_leaves, a_record_comes_last,
    an_empty_file_has_no_files, an_older_spool_is_taken_over, others_do_not_show,
    records_in_part_do_not_show, what_is_left_is_found, what_is_packed_is_read_back,
};
pub use opening::OpenFault;
pub use origin::Origin;
pub use packing::{Pack, SEVERAL};
pub use sent::{is_sent, send_records, with_mark, without_mark};
pub use statements::only_the_last_commit;
pub use store::Store;

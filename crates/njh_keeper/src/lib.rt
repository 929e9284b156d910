//! Keeps the whole files of a hub's customers in a spool file, and opens a hub that has them.
#![tactic(auto)]

mod adding;
mod aside;
mod beginning;
mod fault;
mod following;
mod hub_records;
mod keeper;
mod laws;
mod names;
mod next_row;
mod numbers;
mod opening;
mod own_files;
mod portions;
mod records;
mod remembering;
mod restoring;
mod rewriting;
mod rows;
mod sound;
mod step;
mod sweeping;
mod writer;

pub use fault::{FileFault, OpeningFault, RefusedFile};
pub use keeper::SpoolKeeper;
pub use laws::{
    a_crash_leaves_what_was_committed, a_crash_leaves_what_was_opened,
    a_file_of_another_does_not_show, each_has_what_can_be_put_back, files_stand_again,
    nothing_is_set_aside, opened_again_as_after_the_loss_of_all_lines, own_files_decide,
    started_again_each_is_alone,
};
pub use opening::{OpenedHub, open_from};

//! The hub's next block: which records go out on a line, and what the hub lets its peer send (IBM
//! SC23-0070, "Multileaving").
#![tactic(auto)]

mod aborts;
mod cursor;
mod files;
mod filling;
mod having;
mod laws;
mod outgoing;
mod own_stream;
mod queues;
mod record_room;
mod records;
mod requests;
mod waiting_peers;

pub use filling::fill;
pub use having::has_next;
pub use laws::{
    blocks_carry_files_in_order, first_has_room, longest_fronts_fill,
    nothing_where_all_is_suspended, sources_fill_the_block, sources_move_streams_so,
};
pub use outgoing::Outgoing;
pub use waiting_peers::own_fcs;

//! One record more.

ghost use Rattle.std.specs.Prelude.{◌≡◌};
ghost use Rattle.njh_block.specs.ItemViews.{outgoing_item, IsWritable};
ghost use Rattle.njh_block.specs.Writing.{has_room};
ghost use Rattle.njh_sched.specs.code.Filling.{with_last_where};

use njh_block::{BlockWriter, Out};

/// The SRCB of an end of file, of an abort and of a nodal message.
pub const PLAIN: u8 = 0x80;

/// Adds a record where it has room.
pub fn add_where_room(out: Out<'_>, writer: &mut BlockWriter) -> bool
    requires { IsWritable out }
    ensures room { result ≡ has_room writer.old (outgoing_item out.entry) }
    ensures block { writer.new
        ≡ with_last_where (has_room writer.old (outgoing_item out.entry)) (outgoing_item out.entry) writer.old }
{
    let has_room = writer.fits(&out);
    if has_room {
        writer.add(out);
    }
    has_room
}

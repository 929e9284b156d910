//! The end of a session: what becomes of the files of a line's streams.

ghost use Rattle.std.specs.Prelude.{◌≡◌, ◌<◌, length, map, replicate, slice_set};
ghost use Rattle.njh_spool.specs.Spools.{spool_at};
ghost use Rattle.njh_stream.specs.Receiving.{without_all_open};
ghost use Rattle.njh_stream.specs.Sending.{all_ended};

use crate::receiver::Receiver;
use crate::sender::Sender;
use njh_spool::Spool;

/// The files that come in on a line's streams are given up.
pub fn end_receivers(receivers: &mut [Receiver], customer: u16, spool: &mut Spool)
    requires { customer < length spool.old }
    ensures receivers { receivers.new ≡ replicate (length receivers.old) Receiver.Idle }
    ensures spool { spool.new
        ≡ slice_set spool.old customer (without_all_open receivers.old (spool_at customer spool.old)) }
{
    for place in 0..receivers.len() {
        let mut receiver = receivers[place];
        receiver.end(customer, spool);
        receivers[place] = receiver;
    }
}

/// The files that go out on a line's streams may go again.
pub fn end_senders(senders: &mut [Sender], customer: u16, spool: &mut Spool)
    requires { customer < length spool.old }
    ensures senders { senders.new ≡ replicate (length senders.old) Sender.Idle }
    ensures spool { spool.new ≡ slice_set spool.old customer (all_ended senders.old (spool_at customer spool.old)) }
{
    for place in 0..senders.len() {
        let mut sender = senders[place];
        sender.ended(customer, spool);
        senders[place] = sender;
    }
}

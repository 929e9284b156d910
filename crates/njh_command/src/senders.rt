//! The streams of a customer's lines, as a command sees them.

ghost use Rattle.std.specs.Prelude.{◌≡◌, map};
ghost use Rattle.njh_stream.specs.declared.sender.Sender.{Sender as Stream};
ghost use Rattle.njh_command.specs.Commands.{without_file};

use njh_spool::FileId;
use njh_stream::Sender;

/// All streams from the hub on the lines of the customer whose user says a command.
pub trait Senders {
    /// With each stream changed so.
    ghost each: { Self → (Stream → Stream) → Self };

    /// The file was removed while it was being sent: each stream that is about it gives it up.
    fn abort(&mut self, file: FileId)
        ensures { self.new ≡ each self.old (without_file file) };
}

/// Each of these streams that is about a file gives it up. The others stay as they are.
pub fn give_up(senders: &mut [Sender], file: FileId)
    ensures { senders.new ≡ map (without_file file) senders.old }
{
    for place in 0..senders.len() {
        let mut sender = senders[place];
        give_up_one(&mut sender, file);
        senders[place] = sender;
    }
}

/// A stream gives a file up where it is about that.
fn give_up_one(sender: &mut Sender, file: FileId)
    ensures { sender.new ≡ without_file file sender.old }
{
    if sender.file() == Some(file) {
        sender.abort();
    }
}

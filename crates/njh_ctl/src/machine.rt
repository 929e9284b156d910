//! What a command needs of the machine that it runs on.

ghost use Rattle.std.specs.Prelude.{IfErr};
ghost use Rattle.njh_ctl.specs.Faults.{IsPlain};

use crate::fault::CtlFault;

/// A machine with a console, and a clock.
pub trait Machine<S> {
    /// A new connection to the console.
    fn connect(&self) -> Result<S, CtlFault>
        ensures fault { IfErr result IsPlain };

    /// Now, in seconds since the beginning of 1970.
    fn now(&self) -> u64;
}

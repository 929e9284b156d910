//! A spool file is opened in one place, and lent to whoever tries something with it. Nothing else
//! names the type of an open one, since each function that makes calls at that type is proved with
//! all that they promise: twelve seconds and more than a gigabyte.

ghost use Rattle.njh_spoolfile.specs.Origin.{StandsAsFound};

use njh_spoolfile::{OpenFault, Origin, Store};
use sqlite::{Alter, Start};
use std::alloc::Global;
use std::rt::HostRuntime;
use std::test::Fail;

/// What is tried with an open spool file.
pub(crate) trait Trial {
    /// What comes of it.
    type Told;

    /// Tries it, and lets go of the spool file.
    fn run<S: Origin + Drop>(&self, store: Store<S>) -> Result<Self::Told, Fail>
        requires { StandsAsFound S.Store S.found store };
}

/// What is done to an open spool file.
pub(crate) trait Work {
    /// What comes of it.
    type Told;

    /// Does it.
    fn work<S: Alter>(&self, alloc: Global, store: &mut Store<S>) -> Result<Self::Told, Fail>;
}

/// Work that is tried.
#[derive(Drop)]
pub(crate) struct Worked<'a, W> {
    /// Where memory comes from.
    pub(crate) alloc: Global,
    /// The work.
    pub(crate) work: &'a W,
}

impl<W: Work> Trial for Worked<'_, W> {
    type Told = W::Told;

    fn run<S: Origin + Drop>(&self, mut store: Store<S>) -> Result<W::Told, Fail> {
        let told = self.work.work(self.alloc, &mut store);
        kill(store);
        told
    }
}

/// Lets go of a spool file as a program does that is killed.
pub(crate) fn kill<S: Alter + Drop>(store: Store<S>) {
    drop(store);
}

/// Tries something with the spool file at a path, which is opened or made.
pub(crate) fn lend<S: Start, T: Trial>(
    rt: &HostRuntime,
    path: &str,
    start: S,
    trial: &T,
) -> Result<Result<T::Told, Fail>, OpenFault> {
    match Store::open(rt, path, start) {
        Ok(store) => Ok(trial.run(store)),
        Err(fault) => Err(fault),
    }
}

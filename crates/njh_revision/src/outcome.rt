//! What came of a look at a source of tables.

ghost use Rattle.std.specs.Prelude.{◌≡◌};

use crate::difference::Difference;
use njh_log::{LineText, Severity};
use njh_table::Tables;
use std::fmt;
use std::fmt::Write as _;

/// What came of a look at a source that changed.
#[derive(Drop)]
pub enum SourceOutcome<F: Drop> {
    /// It gives no tables.
    Refused(F),
    /// Nobody can be given other routes by its tables, since this differs first.
    Differs(Difference, Tables),
    /// No routes differ. Its tables are taken.
    Same,
    /// Routes differ from those of the tables that were taken before, if any were. Its own are taken
    /// in their place.
    Taken(Option<Tables>),
}

impl<F: fmt::Display + Drop> SourceOutcome<F> {
    ghost use Rattle.njh_revision.specs.Outcomes.{severity_of};

    /// How grave it is.
    pub fn severity(&self) -> Severity
        ensures { result ≡ severity_of self.now }
    {
        match self {
            SourceOutcome::Refused(_) => Severity::Error,
            SourceOutcome::Differs(_, _) => Severity::Warning,
            SourceOutcome::Same => Severity::Information,
            SourceOutcome::Taken(_) => Severity::Information,
        }
    }
}

impl<F: fmt::Display + Drop> fmt::Display for SourceOutcome<F> {
    fn fmt<W: fmt::Write>(&self, f: &mut fmt::Formatter<W>) -> fmt::Result {
        match self {
            SourceOutcome::Refused(fault) => write!(f, "table file: {fault}; nothing changes"),
            SourceOutcome::Differs(difference, _) => write!(
                f,
                "table file: {difference}; no routes change"
            ),
            SourceOutcome::Same => write!(f, "table file: no new routes"),
            SourceOutcome::Taken(_) => write!(f, "table file: new routes"),
        }
    }
}

/// What is told of tables that weren't taken.
pub(crate) fn fault_in<F: fmt::Display + Drop>(outcome: &SourceOutcome<F>) -> Option<LineText> {
    let mut text = LineText::new();
    match outcome {
        SourceOutcome::Refused(_) => {}
        SourceOutcome::Differs(_, _) => {}
        SourceOutcome::Same => return None,
        SourceOutcome::Taken(_) => return None,
    }
    let _whole = write!(text, "{outcome}").is_ok();
    Some(text)
}

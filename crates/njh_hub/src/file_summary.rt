//! What is shown of a whole file without its records.

ghost use Rattle.std.specs.Prelude.{◌≡◌, ◌<◌, ◌≤◌, length, IsSome};
ghost use Rattle.std.specs.Option.{option_map};
ghost use Rattle.njh_command.specs.Files.{file_at};
ghost use Rattle.njh_spool.specs.CustomerSpool.{whole_numbered};
ghost use Rattle.njh_spool.specs.Spools.{spool_at};
ghost use Rattle.njh_stream.specs.WholeFiles.{HaveHeaders};
ghost use Rattle.njh_hub.specs.Views.{file_summary, summary_line, view_of_summary};

use njh_command::number_of;
use njh_header::{Destination, FileName, User};
use njh_record::Kind;
use njh_spool::{FileId, FileSummary, Spool, State};
use njh_texts::{MessageText, file_text};

/// A whole file, as it is shown without its records.
#[derive(Clone, Copy, Debug, PartialEq, Eq)]
pub struct FileSummaryView {
    /// What it is called: the node that it comes from, and its job number there.
    pub name: FileName,
    /// Whose it is: the node that it comes from, and the user there.
    pub owner: User,
    /// The node that it goes to, and the user there.
    pub destination: Destination,
    /// SYSIN or SYSOUT.
    pub kind: Kind,
    /// What it waits for.
    pub state: State,
    /// How many records it has.
    pub records: u32,
    /// How many blocks it takes.
    pub blocks: u32,
}

impl FileSummaryView {
    /// What is known of a file whose headers read, and how many blocks it takes.
    fn of(summary: FileSummary, blocks: u32) -> FileSummaryView
        requires name { IsSome summary.headers.name }
        requires owner { IsSome summary.headers.owner }
        requires destination { IsSome summary.headers.destination }
        ensures { result ≡ view_of_summary summary blocks }
    {
        FileSummaryView {
            name: summary.headers.name.unwrap(),
            owner: summary.headers.owner.unwrap(),
            destination: summary.headers.destination.unwrap(),
            kind: summary.kind,
            state: summary.state,
            records: summary.records,
            blocks,
        }
    }

    /// What NJH001 says of it behind its number, in EBCDIC.
    pub fn line(&self) -> MessageText
        ensures text { result.items ≡ summary_line self.now }
        ensures few { length result.items ≤ 72 }
    {
        file_text(
            Some(self.name),
            Some(self.destination),
            self.kind,
            self.records,
            self.state,
        )
    }
}

/// What is shown of a customer's whole file; none where the number is no whole file's.
pub(crate) fn file_summary(spool: &Spool, customer: u16, file: FileId) -> Option<FileSummaryView>
    requires range { customer < length spool.now }
    requires headers { HaveHeaders (spool_at customer spool.now).whole }
    ensures { result ≡ option_map file_summary (whole_numbered file (spool_at customer spool.now)) }
{
    let summary = spool.summary(customer, file).ok()?;
    let blocks = spool.blocks(customer, file).ok()?;
    Some(FileSummaryView {
        name: summary.headers.name.unwrap(),
        owner: summary.headers.owner.unwrap(),
        destination: summary.headers.destination.unwrap(),
        kind: summary.kind,
        state: summary.state,
        records: summary.records,
        blocks,
    })
}

/// What is shown of a customer's whole file, by its index in order of arrival.
pub(crate) fn summary_at(spool: &Spool, customer: u16, index: u32) -> FileSummaryView
    requires range { customer < length spool.now }
    requires within { index < length (spool_at customer spool.now).whole }
    requires headers { HaveHeaders (spool_at customer spool.now).whole }
    ensures { result ≡ file_summary (file_at index (spool_at customer spool.now)) }
{
    let summary = spool.summary_at(customer, index);
    let file = number_of(spool, customer, index);
    let blocks = spool.blocks(customer, file).unwrap_or(0);
    FileSummaryView::of(summary, blocks)
}

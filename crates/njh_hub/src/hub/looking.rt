//! What is seen of a hub while it runs: of a line and of a file, without a copy of any record.

ghost use Rattle.std.specs.Prelude.{◌≡◌, ◌<◌, ◌↔◌, length, slice_get, IsTrue, IfOk, IsOk, OnOk, OnErr, OnSome, Err};
ghost use Rattle.std.specs.List.{AllByRecursion};
ghost use Rattle.std.specs.Option.{option_map};
ghost use Rattle.njh_command.specs.Files.{file_at};
ghost use Rattle.njh_customer.specs.Customer.{IsMarked};
ghost use Rattle.njh_stream.specs.WholeFiles.{HaveHeaders};
ghost use Rattle.njh_hub.specs.Resting.{HasNext, IsResting};
ghost use Rattle.njh_hub.specs.Views.{HasGivenUp, IsPartialOn, whole_file_on, file_summary, hub_line, line_view};
ghost use Rattle.njh_hub.specs.WholeHub.{part, HasLine};
ghost use Rattle.njh_table.specs.Entries.{route_of};

use crate::fault::HubFault;
use crate::file_summary::{FileSummaryView, file_summary, summary_at};
use crate::hub::Hub;
use crate::session_view::SessionView;
use njh_customer::{LastCommand, Lines};
use njh_ebcdic::Name;
use njh_line::{MessageCounts, Phase, SessionEnd};
use njh_record::Record;
use njh_spool::FileId;
use njh_stream::{Notice, Receiver, Sender};
use njh_table::{LineId, Route};

/// How many tries in a row a session has.
const TRIES: u8 = 5;

impl Hub {
    /// The lines of a line's customer, of which those count as up whose sessions are up.
    /// `UnknownLine` comes where the hub has no such line.
    fn lines_of(&self, id: LineId) -> Result<&Lines, HubFault>
        ensures lines { IfOk result (λ lines. lines.now.lines ≡ (part id.customer self.now).customer.lines) }
        ensures rests { IfOk result (λ lines. lines.now.rests ≡ (part id.customer self.now).rests) }
        ensures marked { OnOk result (IsMarked (part id.customer self.now).customer) }
        ensures known { IsOk result ↔ HasLine self.now id }
        ensures unknown { OnErr result (result ≡ Err HubFault.UnknownLine) }
    {
        if !self.is_line(id) {
            return Err(HubFault::UnknownLine);
        }
        Ok(&self.lines[usize::from(id.customer)])
    }

    /// A line's session, as far as it is shown; the lines of its customer that count as up where a
    /// route has a second line are those whose sessions are up. `UnknownLine` comes where the hub
    /// has no such line.
    pub fn session(&self, id: LineId) -> Result<SessionView, HubFault>
        ensures session { IfOk result (λ s. s ≡ line_view (hub_line id self.now).state) }
        ensures marked { IsOk result → IsMarked (part id.customer self.now).customer }
        ensures known { IsOk result ↔ HasLine self.now id }
        ensures unknown { OnErr result (result ≡ Err HubFault.UnknownLine) }
    {
        let lines = self.lines_of(id)?;
        Ok(SessionView::of(lines.session(id.number), lines.role(id.number)))
    }

    /// Whether a line is down and its last session ended by its five tries.
    ///
    /// So it is from the moment at which a session ends by its tries, until another session
    /// begins, and on a line that calls until its next tick.
    pub fn has_given_up(&self, id: LineId) -> bool
        ensures { IsTrue result ↔ HasGivenUp self.now id }
    {
        match self.session(id) {
            Ok(session) => {
                session.phase == Phase::Down
                    && session.tries == TRIES
                    && session.last_end == Some(SessionEnd::Tries)
            }
            Err(_) => false,
        }
    }

    /// Whether a line rests: its session is up, the turn is the hub's, and no frame has begun to
    /// come. It is false where the hub has no such line.
    #[tactic(auto, using(crate::proofs::RestingLaws::nothing_begun))]
    pub fn is_resting(&self, id: LineId) -> bool
        ensures { IsTrue result ↔ IsResting self.now id }
    {
        match self.lines_of(id) {
            Ok(lines) => {
                let session = lines.session(id.number);
                session.phase == Phase::Up && session.has_turn && !lines.has_begun(id.number)
            }
            Err(_) => false,
        }
    }

    /// Whether a line's next block would be sent, were it asked for now: it has a record, or it
    /// tells a new function control sequence. Where streams of the line are idle that may walk over
    /// the customer's whole files. It is false where the hub has no such line.
    pub fn has_next(&self, id: LineId) -> bool
        ensures { IsTrue result ↔ HasNext self.now id }
    {
        if !self.is_line(id) {
            return false;
        }
        self.lines[usize::from(id.customer)].has_next(id, &self.shared)
    }

    /// How many nodal messages wait to go out on a line, 64 at most. `UnknownLine` comes where the
    /// hub has no such line.
    pub fn message_count(&self, id: LineId) -> Result<usize, HubFault>
        ensures count { IfOk result (λ count. count ≡ length (hub_line id self.now).state.messages) }
        ensures known { IsOk result ↔ HasLine self.now id }
        ensures unknown { OnErr result (result ≡ Err HubFault.UnknownLine) }
    {
        let lines = self.lines_of(id)?;
        Ok(lines.message_count(id.number))
    }

    /// A nodal message that waits to go out on a line, by its index from the one that waits
    /// longest, 0; none past the last, and none where the hub has no such line.
    #[tactic(auto, using(crate::proofs::WaitingLaws::nothing_waits))]
    pub fn message(&self, id: LineId, index: usize) -> Option<&Record>
        ensures { option_map (λ m. m.now.items) result ≡ slice_get (hub_line id self.now).state.messages index }
    {
        match self.lines_of(id) {
            Ok(lines) => lines.message(id.number, index),
            Err(_) => None,
        }
    }

    /// How many nodal messages came on a line, went on it and were dropped since the hub was
    /// opened, for its operator; none where the hub has no such line. No step depends on it.
    ///
    /// A message keeps its number while it waits: as many as went before it, and those that wait
    /// before it.
    pub fn message_counts(&self, id: LineId) -> MessageCounts {
        match self.lines_of(id) {
            Ok(lines) => lines.message_counts(id.number),
            Err(_) => MessageCounts::none(),
        }
    }

    /// What each of a line's streams to the hub is about: SYSIN 1 to 4, SYSOUT 1 to 4; a file that
    /// comes on one is partial. `UnknownLine` comes where the hub has no such line.
    pub fn receivers(&self, id: LineId) -> Result<&[Receiver], HubFault>
        ensures receivers { IfOk result (λ receivers. receivers.now ≡ (hub_line id self.now).receivers) }
        ensures eight { IfOk result (λ receivers. length receivers.now ≡ 8) }
        ensures partial { IfOk result (λ receivers. AllByRecursion
            (IsPartialOn (part id.customer self.now).customer.spool) receivers.now) }
        ensures known { IsOk result ↔ HasLine self.now id }
        ensures unknown { OnErr result (result ≡ Err HubFault.UnknownLine) }
    {
        let lines = self.lines_of(id)?;
        self.comings_are_partial(id);
        Ok(lines.receivers(id.number))
    }

    /// What the owner of the file was told that the hub refused last on each of a line's streams to
    /// the hub: none where that file had no owner or there was nothing to say, and none once
    /// another file opens there. `UnknownLine` comes where the hub has no such line.
    pub fn notices(&self, id: LineId) -> Result<&[Option<Notice>], HubFault>
        ensures notices { IfOk result (λ notices. notices.now ≡ (hub_line id self.now).notices) }
        ensures eight { IfOk result (λ notices. length notices.now ≡ 8) }
        ensures known { IsOk result ↔ HasLine self.now id }
        ensures unknown { OnErr result (result ≡ Err HubFault.UnknownLine) }
    {
        let lines = self.lines_of(id)?;
        Ok(lines.notices(id.number))
    }

    /// What each of a line's streams from the hub is about, in the same order. `UnknownLine` comes
    /// where the hub has no such line.
    pub fn senders(&self, id: LineId) -> Result<&[Sender], HubFault>
        ensures senders { IfOk result (λ senders. senders.now ≡ (hub_line id self.now).senders) }
        ensures eight { IfOk result (λ senders. length senders.now ≡ 8) }
        ensures known { IsOk result ↔ HasLine self.now id }
        ensures unknown { OnErr result (result ≡ Err HubFault.UnknownLine) }
    {
        let lines = self.lines_of(id)?;
        Ok(lines.senders(id.number))
    }

    /// A customer's whole file of a number, without its records; none where it has none of that
    /// number, or the hub has no such customer. Its headers read.
    pub fn file_summary(&self, customer: u16, file: FileId) -> Option<FileSummaryView>
        ensures summary { result ≡ option_map file_summary (whole_file_on customer file self.now) }
        ensures headers { OnSome result (HaveHeaders (part customer self.now).customer.spool.whole) }
    {
        if usize::from(customer) >= self.lines.len() {
            return None;
        }
        file_summary(&self.shared.spool, customer, file)
    }

    /// How many whole files a customer has; none where the hub has no such customer.
    pub fn file_count(&self, customer: u16) -> u32
        ensures { result ≡ length (part customer self.now).customer.spool.whole }
    {
        if usize::from(customer) >= self.lines.len() {
            return 0;
        }
        self.shared.spool.files(customer)
    }

    /// How many files of a customer have become whole so far: those that came on its lines and
    /// those that were put back, whether they are still there or not. The count stays at the
    /// greatest `u64`. 0 where the hub has no such customer.
    pub fn arrived(&self, customer: u16) -> u64
        ensures { result ≡ (part customer self.now).customer.spool.arrived }
    {
        if usize::from(customer) >= self.lines.len() {
            return 0;
        }
        self.shared.spool.arrived(customer)
    }

    /// A customer's whole file without its records, by its index in order of arrival, from 0 on.
    /// Its headers read.
    pub fn summary_at(&self, customer: u16, index: u32) -> FileSummaryView
        requires { index < length (part customer self.now).customer.spool.whole }
        ensures summary { result ≡ file_summary (file_at index (part customer self.now).customer.spool) }
        ensures headers { HaveHeaders (part customer self.now).customer.spool.whole }
    {
        summary_at(&self.shared.spool, customer, index)
    }

    /// The last command that a user gave on a line of any customer, and how many were given, for a
    /// log. No step depends on it.
    pub fn last_command(&self) -> &LastCommand {
        self.shared.last_command()
    }

    /// How many blocks a customer's files may take. `UnknownCustomer` comes where the hub has no
    /// such customer.
    pub fn quota(&self, customer: u16) -> Result<u32, HubFault>
        ensures quota { IfOk result (λ blocks. blocks ≡ (part customer self.now).customer.entry.quota) }
        ensures known { IsOk result ↔ (customer < length self.now) }
        ensures unknown { OnErr result (result ≡ Err HubFault.UnknownCustomer) }
    {
        if usize::from(customer) >= self.lines.len() {
            return Err(HubFault::UnknownCustomer);
        }
        Ok(self.shared.tables.customer(customer).quota())
    }

    /// Where a node's files and messages of a customer go now. `UnknownCustomer` comes where the
    /// hub has no such customer.
    pub fn route(&self, customer: u16, node: Name) -> Result<Route, HubFault>
        ensures route { IfOk result (λ route. route ≡ route_of (part customer self.now).customer.entry node) }
        ensures known { IsOk result ↔ (customer < length self.now) }
        ensures unknown { OnErr result (result ≡ Err HubFault.UnknownCustomer) }
    {
        if usize::from(customer) >= self.lines.len() {
            return Err(HubFault::UnknownCustomer);
        }
        Ok(self.shared.tables.route(customer, node))
    }
}

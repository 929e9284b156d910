//! The hub: each customer's files and lines, and a step for each event on one of these lines.

ghost use Rattle.std.specs.Prelude.{◌≡◌, ℕ, ◌+◌, ◌<◌, ◌≤◌, ◌↔◌, length, IsTrue, OnOk, OnErr, IfOk, IsOk, Err};
ghost use Rattle.std.specs.List.{AllByRecursion};
ghost use Rattle.std.specs.Vec.{vec_len, vec_capacity};
ghost use Rattle.njh_bisync.specs.Limits.{longest_frame};
ghost use Rattle.njh_customer.specs.Part.{part_after_bytes, part_after_signal};
ghost use Rattle.njh_spool.specs.CustomerSpool.{used_blocks};
ghost use Rattle.njh_spool.specs.Spools.{IsSound};
ghost use Rattle.njh_stream.specs.WholeFiles.{HaveHeaders};
ghost use Rattle.njh_hub.specs.Files.{files_at};
ghost use Rattle.njh_hub.specs.Steps.{IsStep};
ghost use Rattle.njh_hub.specs.Views.{IsPartialOn, hub_line};
ghost use Rattle.njh_hub.specs.WholeHub.{part, HasLine};

mod looking;
mod new_routes;
mod orders;
mod reading;
mod restoring;

use crate::fault::HubFault;
use crate::file_view::{FileView, files_of};
use crate::opening::{all_down, open_lines, open_spool};
use njh_bisync::LONGEST_FRAME;
use njh_customer::{FrameBuffer, Lines, Shared, Signal};
use njh_table::{LineId, Tables};
use std::alloc::Global;
use std::marker::Model;
use std::mem;

/// Customers with files and lines of their own, over one table and one spool. A caller sees it as
/// the list of the customers' parts.
#[derive(Drop)]
pub struct Hub {
    /// The tables and the files, and what a step writes in; it is lent to each customer in turn.
    shared: Shared,
    lines: Vec<Lines>,
    alloc: Global,
}

impl Model for Hub {
    ghost use Rattle.std.specs.Prelude.{List};
    ghost use Rattle.njh_hub.specs.WholeHub.{Part};
    ghost use Rattle.njh_hub.specs.Parts.{parts_of};
    ghost use Rattle.njh_hub.specs.code.HubInvariant.{IsHub};

    ghost Value = { List Part };

    ghost view = { λ hub. parts_of hub.shared.tables hub.shared.spool hub.lines.items };

    ghost invariant = { λ hub. IsHub hub.shared.tables hub.shared.spool hub.lines.items };
}

impl Hub {
    ghost use Rattle.std.specs.Prelude.{map};
    ghost use Rattle.njh_hub.specs.WholeHub.{part_at_open};
    ghost use Rattle.njh_hub.specs.Parts.{entries_of};

    /// A hub of these tables, with all the room that its files and lines need. No line is up at
    /// first, whatever the tables held. Want of memory is the only refusal.
    pub fn open(alloc: Global, tables: Tables) -> Result<Hub, HubFault>
        ensures opened { IfOk result (λ hub. hub ≡ map part_at_open (entries_of tables)) }
        ensures memory { OnErr result (result ≡ Err HubFault.Memory) }
    {
        let tables = all_down(tables);
        let spool = open_spool(alloc, &tables)?;
        let lines = open_lines(alloc, &tables)?;
        Ok(Hub {
            shared: Shared::new(tables, spool),
            lines,
            alloc,
        })
    }

    /// Whether the hub has this line.
    pub fn is_line(&self, id: LineId) -> bool
        ensures line { IsTrue result ↔ HasLine self.now id }
        ensures rests { IsTrue result → id.number < length (part id.customer self.now).rests }
    {
        let customer = usize::from(id.customer);
        if customer >= self.lines.len() {
            return false;
        }
        usize::from(id.number) < self.lines[customer].len()
    }

    /// A customer's whole files in their order of arrival, each with all its records.
    ///
    /// `UnknownCustomer` comes where the hub has no such customer, else `Memory` where there was
    /// none for the copies.
    pub fn files(&self, customer: u16) -> Result<Vec<FileView>, HubFault>
        ensures files { IfOk result (λ files. files.items ≡ files_at customer self.now) }
        ensures headers { OnOk result (HaveHeaders (part customer self.now).customer.spool.whole) }
        ensures known { OnOk result (customer < length self.now) }
        ensures unknown { ¬ (customer < length self.now) → result ≡ Err HubFault.UnknownCustomer }
        ensures memory { customer < length self.now → OnErr result (result ≡ Err HubFault.Memory) }
    {
        if usize::from(customer) >= self.lines.len() {
            return Err(HubFault::UnknownCustomer);
        }
        let files = files_of(self.alloc, &self.shared.spool, customer)?;
        Ok(files)
    }

    /// How many blocks a customer's files take, partial ones too: at most its quota. Nor has it
    /// more files than its entry allows. `UnknownCustomer` where the hub has no such customer.
    pub fn used(&self, customer: u16) -> Result<u32, HubFault>
        ensures used { IfOk result (λ blocks. blocks ≡ used_blocks (part customer self.now).customer.spool) }
        ensures quota { IfOk result (λ blocks. blocks ≤ (part customer self.now).customer.entry.quota) }
        ensures files { IfOk result (λ _. length (part customer self.now).customer.spool.whole
            + length (part customer self.now).customer.spool.partial
            ≤ (part customer self.now).customer.entry.files) }
        ensures known { IsOk result ↔ (customer < length self.now) }
        ensures unknown { OnErr result (result ≡ Err HubFault.UnknownCustomer) }
    {
        if usize::from(customer) >= self.lines.len() {
            return Err(HubFault::UnknownCustomer);
        }
        self.shared.spool.quota_holds(customer);
        Ok(self.shared.spool.used(customer))
    }

    /// What holds of a customer's files: no two of them, whole or partial, have one number, they
    /// stand within its quota, and the headers of its whole files read.
    pub fn files_are_sound(&self, customer: u16)
        ensures sound { IsSound (part customer self.now).customer.spool }
        ensures headers { HaveHeaders (part customer self.now).customer.spool.whole }
    {
        if usize::from(customer) < self.lines.len() {
            self.shared.spool.quota_holds(customer);
        }
    }

    /// A file that comes on a line's stream to the hub is partial.
    pub(crate) fn comings_are_partial(&self, id: LineId)
        requires { HasLine self.now id }
        ensures { AllByRecursion (IsPartialOn (part id.customer self.now).customer.spool)
            (hub_line id self.now).receivers }
    {
        self.shared.spool.quota_holds(id.customer);
    }

    /// Where the hub's memory comes from.
    pub(crate) fn allocator(&self) -> Global {
        self.alloc
    }

    /// One step by bytes of a line: those up to the end of the first frame that is answered, or
    /// all. Answers how many were taken, and puts the frame that is sent in the place of what `out`
    /// held; nothing where none is.
    ///
    /// `UnknownLine` comes where the hub has no such line, `Memory` where `out` found no room for a
    /// frame past what it held.
    pub fn take(&mut self, id: LineId, piece: &[u8], out: &mut Vec<u8>) -> Result<usize, HubFault>
        ensures taken { IfOk result (λ taken. taken
            ≡ (part_after_bytes (part id.customer self.old) id.number piece.now).taken) }
        ensures progress { IfOk result (λ taken. (0 < length piece.now → 0 < taken) × (taken ≤ length piece.now)) }
        ensures step { let t = part_after_bytes (part id.customer self.old) id.number piece.now in
            IsStep self.old id t.after t.frame out.old result self.new out.new }
        ensures rests { OnOk result (id.number < length (part id.customer self.old).rests) }
    {
        let mut frame = self.frame_buffer(id, out)?;
        let lines = &mut self.lines[usize::from(id.customer)];
        let taken = lines.take_bytes(id, piece, &mut self.shared, &mut frame);
        *out = frame.into_bytes();
        Ok(taken)
    }

    /// A tick of the clock on a line. Refusals and `out` are those of `take`.
    pub fn tick(&mut self, id: LineId, out: &mut Vec<u8>) -> Result<(), HubFault>
        ensures { let t = part_after_signal (part id.customer self.old) id.number Signal.Tick in
            IsStep self.old id t.after t.frame out.old result self.new out.new }
    {
        self.signal(id, Signal::Tick, out)
    }

    /// The adapter's word that a block check failed on a line. Refusals and `out` are those of
    /// `take`.
    pub fn garbled(&mut self, id: LineId, out: &mut Vec<u8>) -> Result<(), HubFault>
        ensures { let t = part_after_signal (part id.customer self.old) id.number Signal.Garbled in
            IsStep self.old id t.after t.frame out.old result self.new out.new }
    {
        self.signal(id, Signal::Garbled, out)
    }

    /// The loss of a line. Refusals and `out` are those of `take`.
    pub fn lost(&mut self, id: LineId, out: &mut Vec<u8>) -> Result<(), HubFault>
        ensures { let t = part_after_signal (part id.customer self.old) id.number Signal.Lost in
            IsStep self.old id t.after t.frame out.old result self.new out.new }
    {
        self.signal(id, Signal::Lost, out)
    }

    /// One step by a signal on a line. Refusals and `out` are those of `take`.
    pub fn signal(&mut self, id: LineId, signal: Signal, out: &mut Vec<u8>) -> Result<(), HubFault>
        ensures { let t = part_after_signal (part id.customer self.old) id.number signal in
            IsStep self.old id t.after t.frame out.old result self.new out.new }
    {
        let mut frame = self.frame_buffer(id, out)?;
        let lines = &mut self.lines[usize::from(id.customer)];
        lines.take_signal(id, signal, &mut self.shared, &mut frame);
        *out = frame.into_bytes();
        Ok(())
    }

    /// The room of `out` for the frame of a step on a line. Where the step is refused `out` stays
    /// as it was.
    fn frame_buffer(&self, id: LineId, out: &mut Vec<u8>) -> Result<FrameBuffer, HubFault>
        ensures known { OnOk result (HasLine self.now id) }
        ensures rests { OnOk result (id.number < length (part id.customer self.now).rests) }
        ensures unknown { ¬ HasLine self.now id → result ≡ Err HubFault.UnknownLine }
        ensures memory { HasLine self.now id →
            OnErr result ((result ≡ Err HubFault.Memory) × (vec_capacity out.old < vec_len out.old + longest_frame)) }
        ensures err { OnErr result ((out.new.items ≡ out.old.items) × (vec_capacity out.new ≡ vec_capacity out.old)) }
    {
        if !self.is_line(id) {
            return Err(HubFault::UnknownLine);
        }
        match out.reserve(LONGEST_FRAME) {
            Ok(()) => Ok(FrameBuffer::of(mem::replace(out, Vec::new(self.alloc)))),
            Err(_) => Err(HubFault::Memory),
        }
    }
}

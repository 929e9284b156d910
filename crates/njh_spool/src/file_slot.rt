//! The slot of a customer's file.

ghost use Rattle.std.specs.Prelude.{◌≡◌, ◌+◌, ◌<◌, ◌^◌};
ghost use Rattle.njh_spool.specs.Headers.{is_header_srcb};

use crate::State;
use crate::file_headers::{FileSummary, KeptHeaders};
use crate::file_id::FileId;
use crate::store::chain_block::{ChainBlock, FIRST_BLOCK};
use njh_header::srcb;
use njh_record::Kind;

/// Whether a file is in a slot, and whether it is whole yet.
#[derive(Clone, Copy)]
pub enum Stage {
    Free,
    Partial,
    Whole(State),
}

/// Where a record begins in its file's bytes.
#[derive(Clone, Copy)]
pub struct RecordPlace {
    pub record_index: u32,
    pub place: u32,
    /// A block of the file's chain, to start from.
    pub block: ChainBlock,
}

/// Where the record that was read last begins, and where the one behind it does.
#[derive(Clone, Copy)]
pub struct KeptPlaces {
    pub last: RecordPlace,
    pub next: RecordPlace,
}

/// A file's kind and stage, how many records it has, where it is read on, and, where it is whole,
/// what its headers say.
#[derive(Clone, Copy)]
pub struct FileSlot {
    pub stage: Stage,
    pub kind: Kind,
    pub count: u32,
    /// How many records there are up to the last header, that one too; none where there is no
    /// header.
    pub headers_end: u32,
    pub places: KeptPlaces,
    pub headers: KeptHeaders,
}

/// Whether a record is a job header or a data set header, or a continuation of one.
pub fn is_header(srcb: u8) -> bool
    ensures { result ≡ is_header_srcb srcb }
{
    srcb == srcb::JOB_HEADER || srcb == srcb::DATA_SET_HEADER
}

impl RecordPlace {
    /// The first record's.
    pub const FIRST: RecordPlace = RecordPlace {
        record_index: 0,
        place: 0,
        block: FIRST_BLOCK,
    };
}

impl KeptPlaces {
    /// Those of a file of which no record was read.
    pub const FIRST: KeptPlaces = KeptPlaces {
        last: RecordPlace::FIRST,
        next: RecordPlace::FIRST,
    };
}

impl FileSlot {
    ghost use Rattle.njh_spool.specs.code.Slots.{free_slot, is_free, is_partial, is_whole_stage, state_of, with_record};

    /// A slot in which a file begins, or none is.
    pub fn empty(stage: Stage, kind: Kind) -> Self
        ensures { result ≡ record free_slot { stage = stage; kind = kind } }
    {
        FileSlot {
            stage,
            kind,
            count: 0,
            headers_end: 0,
            places: KeptPlaces::FIRST,
            headers: KeptHeaders::NONE,
        }
    }

    pub fn is_free(&self) -> bool
        ensures { result ≡ is_free self.now.stage }
    {
        matches!(self.stage, Stage::Free)
    }

    pub fn is_partial(&self) -> bool
        ensures { result ≡ is_partial self.now.stage }
    {
        matches!(self.stage, Stage::Partial)
    }

    pub fn is_whole(&self) -> bool
        ensures { result ≡ is_whole_stage self.now.stage }
    {
        matches!(self.stage, Stage::Whole(_))
    }

    /// Counts a record that is put last, of an SRCB.
    pub fn add_record(&mut self, srcb: u8)
        requires { self.old.count + 1 < 2 ^ 32 }
        ensures { self.new ≡ with_record srcb self.old }
    {
        self.count += 1;
        if is_header(srcb) {
            self.headers_end = self.count;
        }
    }

    /// What is known of the file of a number, where it is whole.
    pub fn summary(&self, id: FileId) -> FileSummary
        ensures { result ≡ record {
          id = id;
          kind = self.now.kind;
          state = state_of self.now.stage;
          records = self.now.count;
          headers = self.now.headers.said;
        } }
    {
        let state = match self.stage {
            Stage::Whole(state) => state,
            Stage::Free | Stage::Partial => State::Ready,
        };
        FileSummary {
            id,
            kind: self.kind,
            state,
            records: self.count,
            headers: self.headers.said,
        }
    }
}

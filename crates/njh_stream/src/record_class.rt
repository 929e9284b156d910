//! What a record is to a stream.

ghost use Rattle.std.specs.Prelude.{◌≡◌};
ghost use Rattle.njh_stream.specs.code.Classes as classes;

use crate::coming::{ComingFile, StreamRecord};
use crate::receiver::{Progress, Receiver};
use njh_header::srcb;
use njh_record::Kind;

/// What a record is to a stream, by what the stream is about.
#[derive(Clone, Copy)]
pub(crate) enum RecordClass {
    /// It goes by, and the stream is about this then.
    GoesBy(Receiver),
    /// It ends the file.
    Ends(ComingFile),
    /// It is stored as it is, and then the file has come so far.
    Stored {
        file: ComingFile,
        progress: Progress,
    },
    /// Its bytes say whether it is taken.
    Judged(ComingFile),
}

/// The class of a record on a stream of a kind; one without bytes is the end of file.
pub(crate) fn class_of(receiver: Receiver, kind: Kind, next: &StreamRecord<'_>) -> RecordClass
    ensures { result ≡ classes.class_of kind receiver next.now.srcb next.now.bytes.now }
{
    match receiver {
        Receiver::Idle => RecordClass::GoesBy(Receiver::Idle),
        Receiver::Draining => {
            if next.bytes.is_empty() {
                RecordClass::GoesBy(Receiver::Idle)
            } else {
                RecordClass::GoesBy(Receiver::Draining)
            }
        }
        Receiver::Open { file, progress } => {
            let file = ComingFile {
                number: file,
                kind,
                progress,
            };
            if next.bytes.is_empty() {
                RecordClass::Ends(file)
            } else {
                class_in(file, next.srcb)
            }
        }
    }
}

/// The class of a record with bytes, by its SRCB.
fn class_in(file: ComingFile, srcb: u8) -> RecordClass
    ensures { result ≡ classes.class_in file (classes.unread_progress file.kind file.progress srcb) }
{
    match file.progress {
        Progress::Beginning => RecordClass::Judged(file),
        Progress::JobHeader => {
            if srcb == srcb::JOB_HEADER {
                RecordClass::Stored {
                    file,
                    progress: Progress::JobHeader,
                }
            } else {
                RecordClass::Judged(file)
            }
        }
        Progress::Placed { node, last } => {
            if begins_data_set(file.kind, last, srcb) {
                RecordClass::Judged(file)
            } else {
                RecordClass::Stored {
                    file,
                    progress: Progress::Placed { node, last: srcb },
                }
            }
        }
    }
}

/// Whether a record, by its SRCB and that of the last one, is a data set header that continues no
/// other.
fn begins_data_set(kind: Kind, last: u8, srcb: u8) -> bool
    ensures { result ≡ classes.begins_data_set kind last srcb }
{
    match kind {
        Kind::In => false,
        Kind::Out => srcb == srcb::DATA_SET_HEADER && last != srcb::DATA_SET_HEADER,
    }
}

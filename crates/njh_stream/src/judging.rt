//! Whether a record is taken for the file that comes in.

ghost use Rattle.std.specs.Prelude.{◌≡◌, ◌++◌, ◌∷◌, [], None};
ghost use Rattle.njh_header.specs.Headers.{data_set_header};
ghost use Rattle.njh_table.specs.TableFile.{entry_of};
ghost use Rattle.njh_stream.specs.Receiving.{progress_of};
ghost use Rattle.njh_stream.specs.code.Classes.{stored_of, unread_progress};
ghost use Rattle.njh_stream.specs.code.Verdicts.{verdict_value, IsHeaderPlaced, IsPlaced, IsProgress};
ghost use Rattle.njh_stream.specs.code.Verdicts.{IsTakenAt};
ghost use Rattle.njh_stream.specs.Transmissions as transmissions;

use crate::coming::{ComingFile, Origin, StreamRecord};
use crate::receiver::Progress;
use crate::spool_file::SpoolFile;
use njh_ebcdic::{FIELD, Name};
use njh_header::{DataSetHeader, FileName, JobHeader, name_of, srcb};
use njh_record::Kind;
use njh_table::Route;
use njh_texts::{MessageText, no_files_for, node_unknown, routed_back};

/// A record is taken, and then the file has come so far; or it cancels its file, and this is for
/// the owner.
pub(crate) enum RecordVerdict {
    Taken(Progress),
    Cancelled(Option<MessageText>),
}

/// Judges a record by its bytes, where they say whether it is taken, and by the records of its file
/// so far.
pub(crate) fn judge(
    from: &Origin<'_>,
    file: &ComingFile,
    earlier: &SpoolFile<'_>,
    next: &StreamRecord<'_>,
) -> RecordVerdict
    requires kept { file.now.progress ≡ progress_of file.now.kind earlier.now }
    requires read { unread_progress file.now.kind file.now.progress next.now.srcb ≡ None }
    ensures verdict { verdict_value result
        ≡ transmissions.verdict_of (entry_of from.now.customer.now) from.now.id.number file.now.kind earlier.now
        (stored_of next.now) }
    ensures progress { IsProgress result file.now.kind (earlier.now ++ stored_of next.now ∷ []) }
{
    match file.progress {
        Progress::Beginning => judge_first(from, file.kind, next),
        Progress::JobHeader => judge_data_set(from, earlier, next),
        Progress::Placed { node, .. } => judge_later(node, next),
    }
}

/// The first record: a job header that reads.
fn judge_first(from: &Origin<'_>, kind: Kind, next: &StreamRecord<'_>) -> RecordVerdict
    ensures verdict { verdict_value result
        ≡ transmissions.judged_first (entry_of from.now.customer.now) from.now.id.number kind (stored_of next.now) }
    ensures progress { IsProgress result kind (stored_of next.now ∷ []) }
{
    if next.srcb != srcb::JOB_HEADER {
        return RecordVerdict::Cancelled(None);
    }
    match JobHeader::read(next.bytes) {
        Err(_) => RecordVerdict::Cancelled(None),
        Ok(header) => match kind {
            Kind::Out => RecordVerdict::Taken(Progress::JobHeader),
            Kind::In => judge_job(from, &header),
        },
    }
}

/// A job goes to the node where it runs.
fn judge_job(from: &Origin<'_>, header: &JobHeader) -> RecordVerdict
    ensures verdict { verdict_value result
        ≡ transmissions.judged_job (entry_of from.now.customer.now) from.now.id.number header.now }
    ensures progress { IsPlaced result header.now.execution.node 0xc0 }
{
    let node = header.destination().node;
    match Name::of_field(&node) {
        Err(_) => RecordVerdict::Cancelled(None),
        Ok(name) => judge_node(
            from,
            name,
            Some(header.file_name()),
            Progress::Placed {
                node,
                last: srcb::JOB_HEADER,
            },
        ),
    }
}

/// The record of an output file that has to be its first data set header.
fn judge_data_set(
    from: &Origin<'_>,
    earlier: &SpoolFile<'_>,
    next: &StreamRecord<'_>,
) -> RecordVerdict
    ensures verdict { verdict_value result
        ≡ transmissions.judged_data_set (entry_of from.now.customer.now) from.now.id.number earlier.now
        (stored_of next.now) }
    ensures progress { IsHeaderPlaced result (data_set_header next.now.bytes.now) next.now.srcb }
{
    if next.srcb != srcb::DATA_SET_HEADER {
        return RecordVerdict::Cancelled(None);
    }
    match DataSetHeader::read(next.bytes) {
        Err(_) => RecordVerdict::Cancelled(None),
        Ok(header) => {
            let node = header.destination_node();
            let placed = Progress::Placed {
                node: node.bytes(),
                last: next.srcb,
            };
            judge_node(from, node, name_of(earlier), placed)
        }
    }
}

/// A later data set header names the same node.
fn judge_later(node: [u8; FIELD], next: &StreamRecord<'_>) -> RecordVerdict
    ensures verdict { verdict_value result ≡ transmissions.judged_against node next.now.bytes.now }
    ensures progress { IsPlaced result node next.now.srcb }
{
    let last = next.srcb;
    let progress = Progress::Placed { node, last };
    match DataSetHeader::read(next.bytes) {
        Ok(header) if header.destination_node().bytes() == node => RecordVerdict::Taken(progress),
        _ => RecordVerdict::Cancelled(None),
    }
}

/// A file goes neither to the hub itself, nor to a node that nobody has, nor back by the line on
/// which it comes.
fn judge_node(
    from: &Origin<'_>,
    node: Name,
    file: Option<FileName>,
    progress: Progress,
) -> RecordVerdict
    ensures verdict { verdict_value result
        ≡ transmissions.judged_node (entry_of from.now.customer.now) from.now.id.number node file }
    ensures progress { IsTakenAt result progress }
{
    match from.customer.route(node) {
        Route::Here => RecordVerdict::Cancelled(Some(no_files_for(from.customer.hub()))),
        Route::Unknown => RecordVerdict::Cancelled(Some(node_unknown(node))),
        Route::Line(route) if route == from.id.number => RecordVerdict::Cancelled(file.map(
            |name| routed_back(name),
        )),
        Route::Line(_) => RecordVerdict::Taken(progress),
    }
}

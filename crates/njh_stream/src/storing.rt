//! Records are stored.

ghost use Rattle.std.specs.Prelude.{◌≡◌, ◌<◌, ◌≤◌, ◌++◌, ◌∷◌, [], length, None, IsSome};
ghost use Rattle.std.specs.Option.{option_map};
ghost use Rattle.njh_header.specs.Headers.{job_name};
ghost use Rattle.njh_header.specs.FileHeaders as headers;
ghost use Rattle.njh_spool.specs.CustomerSpool.{has_room_for, partial_numbered};
ghost use Rattle.njh_spool.specs.Spools.{spool_at};
ghost use Rattle.njh_table.specs.TableFile.{entry_of};
ghost use Rattle.njh_stream.specs.code.Classes.{stored_of, unread_progress, IsKept};
ghost use Rattle.njh_stream.specs.code.Verdicts.{appended_where, IsAfter, IsUnread};
ghost use Rattle.njh_stream.specs.SpoolFiles.{records_in};
ghost use Rattle.njh_stream.specs.Receiving.{received_arrival, received_cancelling, notice_of, received_record, Data};
ghost use Rattle.njh_stream.specs.code.Agreement.{Agrees};
ghost use Rattle.njh_stream.specs.Transmissions as transmissions;

use crate::coming::{ComingFile, Origin, StreamRecord};
use crate::judging::{RecordVerdict, judge};
use crate::notice::Notice;
use crate::receiver::{After, Progress, Receiver};
use crate::record_class::{RecordClass, class_of};
use crate::spool_file::SpoolFile;
use njh_block::ControlRcb;
use njh_header::{FileRecords, JobHeader, job_header_of, srcb};
use njh_record::Kind;
use njh_spool::{FileId, Spool};
use njh_texts::{MessageText, spool_full};

/// A record that goes by, or that is stored without a look at its bytes, where the quota has room
/// for it: what the stream is about then. Else none, and nothing is stored. Most records come so:
/// nothing is answered, and no room for a notice is made and moved.
pub(crate) fn store_unread(
    receiver: Receiver,
    next: &StreamRecord<'_>,
    kind: Kind,
    customer: u16,
    spool: &mut Spool,
) -> Option<Receiver>
    requires spooled { customer < length spool.old }
    requires short { length next.now.bytes.now ≤ 256 }
    requires agrees { Agrees kind receiver (spool_at customer spool.old) }
    ensures { IsUnread result spool.new spool.old customer (λ entry l. received_arrival entry l kind receiver
        (Data next.now.srcb next.now.bytes.now) (spool_at customer spool.old)) }
{
    match class_of(receiver, kind, next) {
        RecordClass::GoesBy(receiver) => Some(receiver),
        RecordClass::Stored { file, progress } => {
            match spool.append(customer, file.number, next.srcb, next.bytes) {
                Ok(()) => Some(Receiver::Open {
                    file: file.number,
                    progress,
                }),
                Err(_) => None,
            }
        }
        RecordClass::Ends(_) | RecordClass::Judged(_) => None,
    }
}

/// A record whose bytes say whether it is taken is judged first and stored last.
pub(crate) fn store(
    from: &Origin<'_>,
    file: ComingFile,
    next: &StreamRecord<'_>,
    spool: &mut Spool,
) -> After
    requires spooled { from.now.id.customer < length spool.old }
    requires short { length next.now.bytes.now ≤ 256 }
    requires kept { IsKept file (spool_at from.now.id.customer spool.old) }
    requires read { unread_progress file.kind file.progress next.now.srcb ≡ None }
    ensures { IsAfter result spool.new spool.old from.now.id.customer
        (received_record (entry_of from.now.customer.now) from.now.id.number file.kind file.number
        (stored_of next.now) (spool_at from.now.id.customer spool.old)) }
{
    let customer = from.id.customer;
    spool.quota_holds(customer);
    let earlier = SpoolFile::of(spool, customer, file.number);
    let verdict = judge(from, &file, &earlier, next);
    match verdict {
        RecordVerdict::Cancelled(text) => {
            let header = header_with(&earlier, next);
            cancel(customer, file.number, header, text, spool)
        }
        RecordVerdict::Taken(progress) => append(customer, file.number, progress, next, spool),
    }
}

/// A record that is taken goes to its file, where the quota has room for it.
pub(crate) fn append(
    customer: u16,
    file: FileId,
    progress: Progress,
    next: &StreamRecord<'_>,
    spool: &mut Spool,
) -> After
    requires range { customer < length spool.old }
    requires short { length next.now.bytes.now ≤ 256 }
    requires there { IsSome (partial_numbered file (spool_at customer spool.old)) }
    ensures { IsAfter result spool.new spool.old customer
        (appended_where (has_room_for file (stored_of next.now) (spool_at customer spool.old)) file progress
        (headers.job_header_of (records_in file (spool_at customer spool.old) ++ stored_of next.now ∷ []))
        (stored_of next.now) (spool_at customer spool.old)) }
{
    match spool.append(customer, file, next.srcb, next.bytes) {
        Ok(()) => After {
            receiver: Receiver::Open { file, progress },
            answer: None,
            notice: None,
        },
        Err(_) => {
            let earlier = SpoolFile::of(spool, customer, file);
            let header = header_with(&earlier, next);
            let text = full_text(&header);
            cancel(customer, file, header, text, spool)
        }
    }
}

/// NJH021 for a file with this job header.
fn full_text(header: &Option<JobHeader>) -> Option<MessageText>
    ensures { option_map (λ t. t.items) result
        ≡ transmissions.full_text (option_map job_name header.now) }
{
    match header {
        Some(header) => Some(spool_full(header.file_name())),
        None => None,
    }
}

/// The job header of a file with a record more.
fn header_with(earlier: &SpoolFile<'_>, next: &StreamRecord<'_>) -> Option<JobHeader>
    ensures { result ≡ headers.job_header_of (earlier.now ++ stored_of next.now ∷ []) }
{
    if earlier.count() > 0 {
        return job_header_of(earlier);
    }
    if next.srcb == srcb::JOB_HEADER {
        JobHeader::read(next.bytes).ok()
    } else {
        None
    }
}

/// The file is given up, and its owner is told this, where there is an owner and something to say.
pub(crate) fn cancel(
    customer: u16,
    file: FileId,
    header: Option<JobHeader>,
    text: Option<MessageText>,
    spool: &mut Spool,
) -> After
    requires { customer < length spool.old }
    ensures { IsAfter result spool.new spool.old customer
        (received_cancelling file (notice_of (option_map (λ h. h.origin) header) (option_map (λ t. t.items) text))
        (spool_at customer spool.old)) }
{
    spool.abandon(customer, file).ok();
    After {
        receiver: Receiver::Draining,
        answer: Some(ControlRcb::Refusal),
        notice: notice(header, text),
    }
}

/// A text for the owner of a file.
fn notice(header: Option<JobHeader>, text: Option<MessageText>) -> Option<Notice>
    ensures { result ≡ notice_of (option_map (λ h. h.origin) header) (option_map (λ t. t.items) text) }
{
    let owner = header?.owner();
    Some(Notice {
        node: owner.node,
        user: owner.user,
        text: text?,
    })
}

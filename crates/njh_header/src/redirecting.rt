//! Another destination for a file, record by record.

ghost use Rattle.std.specs.Prelude.{◌≡◌, ◌+◌, ◌≤◌, length, IfSome};
ghost use Rattle.std.specs.Option.{option_map};
ghost use Rattle.std.specs.Result.{result_ok};
ghost use Rattle.njh_header.specs.Headers.{data_set_header, job_header};
ghost use Rattle.njh_header.specs.Redirecting as redirecting;

use crate::data_set_header::DataSetHeader;
use crate::job_header::JobHeader;
use crate::srcb;
use njh_record::Kind;

/// Where a record of a file names the node that a change of the file's destination replaces, if it
/// does. `before` is the SRCB of the record before it, and `None` at the file's first.
pub fn destination_place(kind: Kind, before: Option<u8>, srcb: u8, bytes: &[u8]) -> Option<usize>
    ensures place { result ≡ redirecting.destination_place kind before (record { srcb = srcb; bytes = bytes.now }) }
    ensures within { IfSome result (λ place. place + 8 ≤ length bytes.now) }
{
    match (kind, before) {
        (Kind::In, None) => execution_place(bytes),
        (Kind::In, Some(_)) | (Kind::Out, Some(srcb::DATA_SET_HEADER)) => None,
        (Kind::Out, _) if srcb == srcb::DATA_SET_HEADER => data_set_place(bytes),
        (Kind::Out, _) => None,
    }
}

fn execution_place(bytes: &[u8]) -> Option<usize>
    ensures place { result ≡ option_map (λ h. h.place) (result_ok (job_header bytes.now)) }
    ensures within { IfSome result (λ place. place + 8 ≤ length bytes.now) }
{
    let header = JobHeader::read(bytes).ok()?;
    Some(header.destination_place())
}

fn data_set_place(bytes: &[u8]) -> Option<usize>
    ensures place { result ≡ option_map (λ h. h.place) (result_ok (data_set_header bytes.now)) }
    ensures within { IfSome result (λ place. place + 8 ≤ length bytes.now) }
{
    let header = DataSetHeader::read(bytes).ok()?;
    Some(header.destination_place())
}

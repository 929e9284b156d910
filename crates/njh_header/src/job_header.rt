//! Job headers.

use crate::fault::HeaderFault;
use crate::field::{read_name, read_number};
use crate::file_name::FileName;
use crate::places::job;
use crate::section::find_general;
use crate::user::{Destination, User};
use njh_ebcdic::Name;
use njh_record::field_at;
use std::marker::Model;

/// What the general section of a job header says (IBM SC23-0070, "Job header").
#[derive(Clone, Copy, Debug, PartialEq, Eq)]
pub struct JobHeader {
    number: u16,
    name: [u8; 8],
    user: [u8; 8],
    origin: User,
    execution: Destination,
    place: usize,
}

impl Model for JobHeader {
    ghost use Rattle.njh_header.specs.Headers as headers;

    ghost Value = { headers.JobHeader };

    ghost view = { λ h. record {
      number = h.number;
      name = h.name;
      user = h.user;
      origin = h.origin;
      execution = h.execution;
      place = h.place;
    } };

    ghost inverse = { λ h. record {
      number = h.number;
      name = h.name;
      user = h.user;
      origin = h.origin;
      execution = h.execution;
      place = h.place;
    } };
}

impl JobHeader {
    ghost use Rattle.std.specs.Prelude.{◌≡◌, ◌+◌, ◌≤◌, ◌↔◌, length, IfOk};
    ghost use Rattle.njh_header.specs.Headers.{JobHeader as Seen, IsJobHeader, IsJobFault, job_header, job_name};

    /// The job header that a record is.
    pub fn read(bytes: &[u8]) -> Result<JobHeader, HeaderFault>
        // It is what the record is by its sections, or the fault that the record has by them.
        ensures read { (header : Seen) → (result ≡ Ok header) ↔ IsJobHeader bytes.now header }
        ensures fault { (fault : HeaderFault) → (result ≡ Err fault) ↔ IsJobFault bytes.now fault }

        ensures header { result ≡ job_header bytes.now }
        ensures within { IfOk result (λ header. header.place + 8 ≤ length bytes.now) }
    {
        Self::of_sections(bytes)
    }

    fn of_sections(bytes: &[u8]) -> Result<JobHeader, HeaderFault>
        ensures header { result ≡ job_header bytes.now }
        ensures within { IfOk result (λ header. header.place + 8 ≤ length bytes.now) }
    {
        let section = find_general(bytes, job::SIZE)?;
        let node = read_name(bytes, section + job::ORIGIN_NODE)?;
        let place = section + job::EXECUTION_NODE;
        Ok(JobHeader {
            number: read_number(bytes, section + job::NUMBER),
            name: field_at(bytes, section + job::NAME),
            user: field_at(bytes, section + job::USER),
            origin: User {
                node,
                user: field_at(bytes, section + job::ORIGIN_USER),
            },
            execution: Destination {
                node: field_at(bytes, place),
                user: field_at(bytes, section + job::EXECUTION_USER),
            },
            place,
        })
    }

    /// The original job number.
    pub fn number(&self) -> u16
        ensures { result ≡ self.now.number }
    {
        self.number
    }

    /// The job's name.
    pub fn name(&self) -> [u8; 8]
        ensures { result ≡ self.now.name }
    {
        self.name
    }

    /// The user who gave the job.
    pub fn user(&self) -> [u8; 8]
        ensures { result ≡ self.now.user }
    {
        self.user
    }

    /// The node that the job comes from.
    pub fn origin_node(&self) -> Name
        ensures { result ≡ self.now.origin.node }
    {
        self.owner().node
    }

    /// The field of the user there.
    pub fn origin_user(&self) -> [u8; 8]
        ensures { result ≡ self.now.origin.user }
    {
        self.owner().user
    }

    /// The field of the execution node, which needn't be a name.
    pub fn execution_node(&self) -> [u8; 8]
        ensures { result ≡ self.now.execution.node }
    {
        self.destination().node
    }

    /// The field of the user at the execution node.
    pub fn execution_user(&self) -> [u8; 8]
        ensures { result ≡ self.now.execution.user }
    {
        self.destination().user
    }

    /// The name of the job's files: origin node and job number.
    pub fn file_name(&self) -> FileName
        ensures { result ≡ job_name self.now }
    {
        FileName {
            node: self.owner().node,
            number: self.number,
        }
    }

    /// Whose the job's files are: origin node and user.
    pub fn owner(&self) -> User
        ensures { result ≡ self.now.origin }
    {
        self.origin
    }

    /// Where the job is to run: execution node and user.
    pub fn destination(&self) -> Destination
        ensures { result ≡ self.now.execution }
    {
        self.execution
    }

    /// Where in the record the execution node's eight bytes begin.
    pub fn destination_place(&self) -> usize
        ensures { result ≡ self.now.place }
    {
        self.place
    }
}

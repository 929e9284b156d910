//! Data set headers.

use crate::fault::HeaderFault;
use crate::field::read_name;
use crate::places::data_set;
use crate::section::find_general;
use crate::user::{Destination, User};
use njh_ebcdic::Name;
use njh_record::field_at;
use std::marker::Model;

/// What the general section of a data set header says (IBM SC23-0070, "Data set header").
#[derive(Clone, Copy, Debug, PartialEq, Eq)]
pub struct DataSetHeader {
    destination: User,
    place: usize,
}

impl Model for DataSetHeader {
    ghost use Rattle.njh_header.specs.Headers as headers;

    ghost Value = { headers.DataSetHeader };

    ghost view = { λ h. record { destination = h.destination; place = h.place } };

    ghost inverse = { λ h. record { destination = h.destination; place = h.place } };
}

impl DataSetHeader {
    ghost use Rattle.std.specs.Prelude.{◌≡◌, ◌+◌, ◌≤◌, ◌↔◌, length, IfOk};
    ghost use Rattle.njh_header.specs.Headers.{DataSetHeader as Seen, IsDataSetHeader, IsDataSetFault, data_set_header};

    /// The data set header that a record is.
    pub fn read(bytes: &[u8]) -> Result<DataSetHeader, HeaderFault>
        // It is what the record is by its sections, or the fault that the record has by them.
        ensures read { (header : Seen) → (result ≡ Ok header) ↔ IsDataSetHeader bytes.now header }
        ensures fault { (fault : HeaderFault) → (result ≡ Err fault) ↔ IsDataSetFault bytes.now fault }

        ensures header { result ≡ data_set_header bytes.now }
        ensures within { IfOk result (λ header. header.place + 8 ≤ length bytes.now) }
    {
        Self::of_sections(bytes)
    }

    fn of_sections(bytes: &[u8]) -> Result<DataSetHeader, HeaderFault>
        ensures header { result ≡ data_set_header bytes.now }
        ensures within { IfOk result (λ header. header.place + 8 ≤ length bytes.now) }
    {
        let section = find_general(bytes, data_set::SIZE)?;
        let place = section + data_set::DESTINATION_NODE;
        let node = read_name(bytes, place)?;
        Ok(DataSetHeader {
            destination: User {
                node,
                user: field_at(bytes, section + data_set::DESTINATION_USER),
            },
            place,
        })
    }

    /// The node that the data set goes to.
    pub fn destination_node(&self) -> Name
        ensures { result ≡ self.now.destination.node }
    {
        self.destination.node
    }

    /// The field of the user there.
    pub fn destination_user(&self) -> [u8; 8]
        ensures { result ≡ self.now.destination.user }
    {
        self.destination.user
    }

    /// Where the data set goes: destination node and user.
    pub fn destination(&self) -> Destination
        ensures { result ≡ self.now.destination }
    {
        Destination {
            node: self.destination.node.bytes(),
            user: self.destination.user,
        }
    }

    /// Where in the record the destination node's eight bytes begin.
    pub fn destination_place(&self) -> usize
        ensures { result ≡ self.now.place }
    {
        self.place
    }
}

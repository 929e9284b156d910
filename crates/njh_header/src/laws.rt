//! Laws of the definitions. Each function does nothing: its contract is the law.

ghost use Rattle.std.specs.Prelude.{◌≡◌, ◌↔◌, ℕ, List, Ok, Err, None, true};
ghost use Rattle.njh_ebcdic.specs.Names.{is_name};
ghost use Rattle.njh_record.specs.declared.Kind.{Kind};
ghost use Rattle.njh_record.specs.Stored.{Stored};
ghost use Rattle.njh_header.specs.FileHeaders.{with_destination};
ghost use Rattle.njh_header.specs.Headers.{DataSetHeader, IsDataSetFault, IsDataSetHeader, data_set_header, IsJobFault};
ghost use Rattle.njh_header.specs.Headers.{IsJobHeader, JobHeader, job_header};
ghost use Rattle.njh_header.specs.Redirecting.{records_to_node};
ghost use Rattle.njh_header.specs.Sections.{HasGeneral, LacksGeneral};
ghost use Rattle.njh_header.specs.Walk.{general_section};
ghost use Rattle.njh_header.specs.WholeFiles.{HasHeaders};

use crate::fault::HeaderFault;

/// The walk over a header's sections gives where the general one begins, or why there is none, and
/// nothing else.
pub fn one_general_section()
    ensures found { (size : ℕ) (header : List ℕ) (place : ℕ)
        → (general_section size header ≡ Ok place) ↔ HasGeneral size header place }
    ensures lacks { (size : ℕ) (header : List ℕ) (fault : HeaderFault) →
        (general_section size header ≡ Err fault) ↔ LacksGeneral size header fault }
{}

/// A record is read as the job header that it is, or as why it is none, and as nothing else.
pub fn one_job_header()
    ensures header { (bytes : List ℕ) (header : JobHeader) → (job_header bytes ≡ Ok header) ↔ IsJobHeader bytes header }
    ensures fault { (bytes : List ℕ) (fault : HeaderFault) → (job_header bytes ≡ Err fault) ↔ IsJobFault bytes fault }
{}

/// A record is read as the data set header that it is, or as why it is none, and as nothing else.
pub fn one_data_set_header()
    ensures header { (bytes : List ℕ) (header : DataSetHeader)
        → (data_set_header bytes ≡ Ok header) ↔ IsDataSetHeader bytes header }
    ensures fault { (bytes : List ℕ) (fault : HeaderFault)
        → (data_set_header bytes ≡ Err fault) ↔ IsDataSetFault bytes fault }
{}

/// A file that is redirected record by record is the file with another destination.
pub fn redirected_by_records()
    ensures { (kind : Kind) (node : List ℕ) (records : List Stored) →
        records_to_node kind node None records ≡ with_destination kind node records }
{}

/// A file whose headers read is still one with another destination, whose node is a name.
pub fn redirected_files_have_headers()
    ensures { (kind : Kind) (node : List ℕ) (records : List Stored)
        → is_name node ≡ true → HasHeaders kind records → HasHeaders kind (with_destination kind node records) }
{}

//! What faults are called.

ghost use Rattle.std.specs.Prelude.{◌≡◌};
ghost use Rattle.njh_decode.specs.Faults as faults;

use njh_block::BlockFault;
use njh_header::HeaderFault;
use njh_nmr::NmrFault;

/// The name of a block's fault.
#[tactic(auto, unfolding(crate::specs::Faults::block_fault_words))]
pub(crate) fn block_fault_words(fault: BlockFault) -> &'static str
    ensures { result.now ≡ faults.block_fault_words fault }
{
    match fault {
        BlockFault::TooShort => "B1 TooShort",
        BlockFault::BadBcb => "B2 BadBcb",
        BlockFault::BadFcs => "B3 BadFcs",
        BlockFault::BadRcb => "B4 BadRcb",
        BlockFault::BadRecord => "B5 BadRecord",
    }
}

/// The name of a header's fault.
#[tactic(auto, unfolding(crate::specs::Faults::header_fault_words))]
pub(crate) fn header_fault_words(fault: HeaderFault) -> &'static str
    ensures { result.now ≡ faults.header_fault_words fault }
{
    match fault {
        HeaderFault::TooShort => "H1 TooShort",
        HeaderFault::NoGeneralSection => "H2 NoGeneralSection",
        HeaderFault::BadName => "H3 BadName",
        HeaderFault::SectionOverrun => "H4 SectionOverrun",
    }
}

/// The name of a nodal message's fault.
#[tactic(auto, unfolding(crate::specs::Faults::nmr_fault_words))]
pub(crate) fn nmr_fault_words(fault: NmrFault) -> &'static str
    ensures { result.now ≡ faults.nmr_fault_words fault }
{
    match fault {
        NmrFault::TooShort => "N1 TooShort",
        NmrFault::BadLength => "N2 BadLength",
        NmrFault::BadName => "N3 BadName",
    }
}

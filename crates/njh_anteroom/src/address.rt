//! Which addresses are this machine's own, by their numbers.

ghost use Rattle.std.specs.Prelude.{◌≡◌};
ghost use Rattle.njh_anteroom.specs.Addresses.{is_loopback};

/// Whether the address of a number is this machine's own: of 127.0.0.0/8, or ::1.
#[tactic(auto, unfolding(crate::specs::Addresses::is_loopback))]
pub(crate) fn is_loopback(number: u128) -> bool
    ensures { result ≡ is_loopback number }
{
    number == 1 || number / 0x100_0000 == 0xffff_7f
}

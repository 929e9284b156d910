//! The bytes with which a frame may end (IBM GA27-3004, transparent text).

ghost use Rattle.std.specs.Prelude.{◌≡◌};
ghost use Rattle.njh_wire.specs.OneFrame.{may_end};

/// After DLE: ends a text.
const ETX: u8 = 0x03;

/// After DLE: ends a text.
const ETB: u8 = 0x26;

/// After SOH: ends a contact; after DLE in a text gives it up.
const ENQ: u8 = 0x2D;

/// A frame by itself.
const EOT: u8 = 0x37;

/// A frame by itself.
const NAK: u8 = 0x3D;

/// After DLE: ends an ACK0.
const ACK_0: u8 = 0x70;

/// Whether a frame may end with this byte. In a text it may be data as well.
pub(crate) fn may_end(byte: u8) -> bool
    ensures { result ≡ may_end byte }
{
    matches!(byte, ENQ | ACK_0 | NAK | EOT | ETB | ETX)
}

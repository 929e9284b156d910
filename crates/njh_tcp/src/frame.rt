//! What a TTR carries.

/// A frame that goes over TCP/IP: what else there is on a bisync line, TCP promises.
#[derive(Clone, Copy, Debug)]
pub enum TcpFrame<'a> {
    /// SOH ENQ: a call.
    Enquiry,
    /// DLE and 70: the answer to a call, or a keep-alive.
    Ack0,
    /// The data of a text, of 1 to 4,096 bytes: no DLE in it is doubled.
    Text(&'a [u8]),
}

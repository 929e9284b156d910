//! A stream of a line of a customer's.

use njh_block::Stream;

/// A stream on a line, and whose line that is.
#[derive(Clone, Copy)]
pub(crate) struct OwnStream {
    pub(crate) stream: Stream,
    pub(crate) customer: u16,
}

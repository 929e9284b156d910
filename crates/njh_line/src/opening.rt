//! The sign-ons of a session (IBM SC23-0070, "I and J control records").

ghost use Rattle.std.specs.Prelude.{◌≡◌, ◌≤◌, ◌<◌, IfOk};
ghost use Rattle.njh_block.specs.Blocks.{text_of};
ghost use Rattle.njh_line.specs.Openings.{fitted, fitting, is_password, opening, own_sign_on, shown_first, srcb_of};

use crate::config::Config;
use crate::refusal::Refusal;
use crate::session::LEAST_SIZE;
use arrayvec::ArrayVec;
use njh_block::{Bcb, BlockText, BlockWriter, Fcs, Out};
use njh_ebcdic::BLANK;
use njh_header::SignOn;

/// The password field of a line without one.
const BLANKS: [u8; 8] = [BLANK; 8];

/// The sign-ons with which a session opens.
#[derive(Clone, Copy, Debug, PartialEq, Eq)]
pub enum Opening {
    /// I, of the end that calls.
    Initial,
    /// J, of the end that answers.
    Response,
}

impl Opening {
    /// The SRCB of its record.
    pub fn srcb(self) -> u8
        ensures { result ≡ srcb_of self }
    {
        match self {
            Opening::Initial => 0xc9,
            Opening::Response => 0xd1,
        }
    }
}

impl Config {
    /// Whether a line takes a password.
    fn takes_password(&self, given: &[u8; 8]) -> bool
        ensures { result ≡ is_password self.now.password given.now }
    {
        match self.password {
            None => true,
            Some(password) => *given == password.bytes(),
        }
    }

    /// A sign-on with which a peer may sign on, or why it may not.
    fn fitted(&self, sign_on: SignOn) -> Result<SignOn, Refusal>
        ensures judged { result ≡ fitted sign_on self.now }
        ensures size { IfOk result (λ sign_on. 300 ≤ sign_on.block) }
    {
        if sign_on.node != self.node {
            Err(Refusal::Node(sign_on.node))
        } else if sign_on.block < LEAST_SIZE {
            Err(Refusal::Size(sign_on.block))
        } else if self.takes_password(&sign_on.password) {
            Ok(sign_on)
        } else {
            Err(Refusal::Password)
        }
    }

    /// The text of the I or the J block: a sign-on alone, under a BCB that sets the count to 0,
    /// nothing suspended. A line without a password sends blanks.
    pub fn opening(&self, kind: Opening) -> BlockText
        ensures { result.items ≡ opening kind self.now }
    {
        let size = usize::from(LEAST_SIZE);
        let mut block = BlockWriter::new(size, Bcb::setting(0), Fcs::nothing_suspended());
        self.write_opening(kind, &mut block);
        block.finish()
    }

    /// Writes that block in place of what a writer held.
    pub fn write_opening(&self, kind: Opening, block: &mut BlockWriter)
        ensures { text_of block.new.bcb block.new.fcs block.new.items ≡ opening kind self.now }
    {
        let mut sign_on = ArrayVec::new();
        self.sign_on().write(&mut sign_on);
        let size = usize::from(LEAST_SIZE);
        block.restart(size, Bcb::setting(0), Fcs::nothing_suspended());
        block.add(Out::General {
            srcb: kind.srcb(),
            bytes: &sign_on,
        });
    }

    fn sign_on(&self) -> SignOn
        ensures { result ≡ own_sign_on self.now }
    {
        SignOn {
            node: self.hub,
            block: self.block,
            password: match self.password {
                None => BLANKS,
                Some(password) => password.bytes(),
            },
        }
    }

    /// The sign-on of this kind that a block's first record is, where it reads and fits; or why it
    /// is refused.
    pub(crate) fn fitting(
        &self,
        kind: Opening,
        first: Option<(u8, &[u8])>,
    ) -> Result<SignOn, Refusal>
        ensures read { result ≡ fitting kind self.now (shown_first first.entry) }
        ensures size { IfOk result (λ sign_on. 300 ≤ sign_on.block) }
    {
        let Some((srcb, bytes)) = first else {
            return Err(Refusal::NoSignOn);
        };
        if srcb != kind.srcb() {
            return Err(Refusal::NoSignOn);
        }
        match SignOn::read(bytes) {
            Ok(sign_on) => self.fitted(sign_on),
            Err(_) => Err(Refusal::Unreadable),
        }
    }
}

//! The line table (IBM GA27-3004).

ghost use Rattle.std.specs.Prelude.{◌≡◌, ◌≤◌, true, IfOk};
ghost use Rattle.njh_line.specs.Sessions.{IsSession, IsConfig, in_session};
ghost use Rattle.njh_line.specs.LineTable.{Block as CameBlock, table_outcome, acting, call, contact, end_and_contact};
ghost use Rattle.njh_line.specs.LineTable.{end_with, next_in_turn, none, input_value, signed_on, try_with, with_reply};
ghost use Rattle.njh_line.specs.Openings.{shown_first};

use crate::Phase::{Answered, Calling, Down, SentI, Up};
use crate::config::Config;
use crate::counts::Counted;
use crate::ending::SessionEnd;
use crate::input::Input::{
    self, Ack0, Bad, Block, Enquiry, Eot, Garbled, Lost, Nak, Spoiled, Tick,
};
use crate::opening::Opening;
use crate::refusal::Refusal;
use crate::session::Session;
use crate::verdict::{LineReply, Verdict};
use njh_bisync::Control;
use njh_block::{Bcb, Fcs};
use njh_header::SignOn;
use njh_table::Role;

/// The most tries in a row.
const TRIES: u8 = 5;

const ENQUIRY: LineReply = LineReply::Control(Control::Enquiry);

const ACK_0: LineReply = LineReply::Control(Control::Ack0);

const NAK: LineReply = LineReply::Control(Control::Nak);

const I_BLOCK: LineReply = LineReply::SignOn(Opening::Initial);

const J_BLOCK: LineReply = LineReply::SignOn(Opening::Response);

const NEXT_BLOCK: LineReply = LineReply::Next { or_ack0: true };

const NEXT_BLOCK_OR_TURN: LineReply = LineReply::Next { or_ack0: false };

/// The session after an input, and what the input does.
#[derive(Clone, Copy)]
pub(crate) struct SessionOutcome {
    /// The session then.
    pub session: Session,
    /// What the input does.
    pub verdict: Verdict,
}

/// The table: an input and a phase to a cell. In Down and Calling there is no session, and a block
/// is none.
#[tactic(auto, unfolding(crate::specs::LineTable::table_outcome))]
pub(crate) fn accepted(config: &Config, session: Session, input: &Input<'_>) -> SessionOutcome
    requires config { IsConfig config.now }
    requires session { IsSession session }
    ensures outcome { result ≡ table_outcome config.now (input_value input.now) session }
    ensures kept { IsSession result.session }
{
    match (input, session.phase) {
        (Enquiry, Down) => contact(config.role, session),
        (Enquiry, Calling | SentI) => none(session),
        (Enquiry, Answered) => with_reply(session, ACK_0),
        (Enquiry, Up) => end_and_contact(config.role, session),

        (Ack0, Down | Answered | SentI) => none(session),
        (Ack0, Calling) => with_reply(session.entered(SentI), I_BLOCK),
        (Ack0, Up) => with_reply(session.acknowledged(), NEXT_BLOCK_OR_TURN),

        (Nak, Down | Calling) => none(session),
        (Nak, Answered | SentI | Up) => try_with(session, LineReply::Again),

        (Eot | Lost, Down) => none(session),
        (Eot | Lost, Calling | Answered | SentI) => none(session.down()),
        (Eot, Up) => end_with(session, SessionEnd::Eot, LineReply::Nothing),
        (Lost, Up) => end_with(session, SessionEnd::Lost, LineReply::Nothing),

        (Block { .. }, Down | Calling) => none(session),
        (Block { bcb, fcs, first }, Answered | SentI | Up) => {
            block_came(config, session, *bcb, *fcs, *first)
        }

        (Spoiled | Bad | Garbled, Down | Calling) => none(session),
        (Spoiled | Bad | Garbled, Answered | SentI | Up) => try_with(session, NAK),

        (Tick, Down) => call(config.role, session),
        (Tick, Calling) => with_reply(session, ENQUIRY),
        (Tick, Answered | SentI) => try_with(session, NAK),
        (Tick, Up) => next_in_turn(session),
    }
}

fn with_reply(session: Session, reply: LineReply) -> SessionOutcome
    ensures { result ≡ with_reply reply session }
{
    SessionOutcome {
        session,
        verdict: Verdict {
            ended: false,
            acts: false,
            reply,
        },
    }
}

fn none(session: Session) -> SessionOutcome
    ensures { result ≡ none session }
{
    with_reply(session, LineReply::Nothing)
}

/// The session ends so.
fn end_with(session: Session, end: SessionEnd, reply: LineReply) -> SessionOutcome
    ensures { result ≡ end_with end reply session }
{
    SessionOutcome {
        session: session.ended(end),
        verdict: Verdict {
            ended: true,
            acts: false,
            reply,
        },
    }
}

/// Five tries are the most: then the session ends, and nothing is sent.
fn try_with(session: Session, reply: LineReply) -> SessionOutcome
    requires { IsSession session }
    ensures outcome { result ≡ try_with reply session }
    ensures kept { IsSession result.session }
{
    if session.tries == TRIES {
        return end_with(session, SessionEnd::Tries, LineReply::Nothing);
    }
    with_reply(
        Session {
            tries: session.tries + 1,
            ..session
        },
        reply,
    )
}

/// The peer calls: the end that answers enters a session.
fn contact(role: Role, session: Session) -> SessionOutcome
    ensures outcome { result ≡ contact role session }
    ensures kept { IsSession session → IsSession result.session }
{
    match role {
        Role::Call => none(session),
        Role::Answer => with_reply(session.entered(Answered), ACK_0),
    }
}

/// The peer calls while the line is up: what ends the session may begin another.
fn end_and_contact(role: Role, session: Session) -> SessionOutcome
    ensures outcome { result ≡ end_and_contact role session }
    ensures kept { IsSession session → IsSession result.session }
{
    let next = contact(role, session.ended(SessionEnd::Contact));
    SessionOutcome {
        session: next.session,
        verdict: Verdict {
            ended: true,
            ..next.verdict
        },
    }
}

/// Only the end that calls does so.
fn call(role: Role, session: Session) -> SessionOutcome
    ensures { result ≡ call role session }
{
    match role {
        Role::Call => with_reply(
            Session {
                phase: Calling,
                ..session
            },
            ENQUIRY,
        ),
        Role::Answer => none(session),
    }
}

/// A tick while the line is up.
fn next_in_turn(session: Session) -> SessionOutcome
    requires { IsSession session }
    ensures outcome { result ≡ next_in_turn session }
    ensures kept { IsSession result.session }
{
    if session.has_turn {
        return with_reply(session, NEXT_BLOCK);
    }
    try_with(session, NAK)
}

/// A good block comes in a session: the count rule.
fn block_came(
    config: &Config,
    session: Session,
    bcb: Bcb,
    fcs: Fcs,
    first: Option<(u8, &[u8])>,
) -> SessionOutcome
    requires config { IsConfig config.now }
    requires session { IsSession session }
    requires inside { in_session session.phase ≡ true }
    ensures outcome { result ≡ table_outcome config.now (CameBlock bcb fcs (shown_first first.entry)) session }
    ensures kept { IsSession result.session }
{
    match session.counted(bcb) {
        Counted::Acts => acting(config, session.after_acting(bcb, fcs), first),
        Counted::Repeats => try_with(session, LineReply::Again),
        Counted::OutOfSequence => end_with(
            session,
            SessionEnd::OutOfSequence,
            LineReply::Sequence {
                expected: Bcb::normal(session.expected()),
            },
        ),
    }
}

/// What a block that is acted on does; `session` is the one after it.
fn acting(config: &Config, session: Session, first: Option<(u8, &[u8])>) -> SessionOutcome
    requires config { IsConfig config.now }
    requires session { IsSession session }
    ensures outcome { result ≡ acting config.now (shown_first first.entry) session }
    ensures kept { IsSession result.session }
{
    match session.phase {
        Down | Calling => none(session),
        Answered => {
            let sign_on = config.fitting(Opening::Initial, first);
            signed_on(config, session, sign_on, J_BLOCK)
        }
        SentI => {
            let sign_on = config.fitting(Opening::Response, first);
            signed_on(config, session, sign_on, NEXT_BLOCK)
        }
        Up => SessionOutcome {
            session,
            verdict: Verdict {
                ended: false,
                acts: true,
                reply: NEXT_BLOCK,
            },
        },
    }
}

/// A sign-on that fits comes, or is refused.
fn signed_on(
    config: &Config,
    session: Session,
    sign_on: Result<SignOn, Refusal>,
    reply: LineReply,
) -> SessionOutcome
    requires config { IsConfig config.now }
    requires session { IsSession session }
    requires fits { IfOk sign_on (λ x. 300 ≤ x.block) }
    ensures outcome { result ≡ signed_on reply config.now sign_on session }
    ensures kept { IsSession result.session }
{
    match sign_on {
        Err(refusal) => none(session.refused(refusal)),
        Ok(sign_on) => with_reply(
            Session {
                phase: Up,
                size: config.block.min(sign_on.block),
                ..session
            },
            reply,
        ),
    }
}

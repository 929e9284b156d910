//! Orders that are given in a talk with a console.

ghost use Rattle.std.specs.Prelude.{◌≡◌, IfErr, IfOk, true};
ghost use Rattle.njh_ctl.specs.Faults.{IsAskedWhy, IsPlain, IsUntoldWhy, IsWhy, OutcomeFault};
ghost use Rattle.njh_ctl.specs.Many.{GivenTold};
ghost use Rattle.njh_ctl.specs.Orders.{EndCame, IsAskedAgain, IsCarriedOut, IsGivenSo, IsOutcomeTold, IsSaid};
ghost use Rattle.njh_ctl.specs.Orders.{IsTakenSo, Ordered, OutcomeCame, OutcomeSaid, order_view};
ghost use Rattle.njh_ctl.specs.Questions.{terms_view};
ghost use Rattle.njh_ctl.specs.declared.ending.Ending.TheVariants.{Done};
ghost use Rattle.njh_ctl.specs.declared.ending.Given.TheVariants as given;

use crate::asker::Asked;
use crate::counts::Outcome;
use crate::ending::{Ending, Given};
use crate::fault::CtlFault;
use crate::machine::Machine;
use crate::many::{outcome_of, refused_line};
use crate::order::{Order, Terms};
use crate::question::Question;
use crate::replies::ending_of;
use crate::reply::{Refusal, undone_by};
use crate::request_text::is_key;
use crate::talk::Talk;
use std::alloc::Global;
use std::io::{Read, Write};

/// Gives an order, and says in the end that all was done, if it was.
pub(crate) fn order<S: Read + Write + Drop, M: Machine<S> + Drop>(
    talk: &mut Talk<S, M>,
    order: Order<'_>,
    terms: Terms<'_>,
) -> Result<Ending, CtlFault>
    ensures done { IfOk result (IsSaid (Ordered (order_view order.entry) (terms_view terms.entry)) talk.old talk.new) }
    ensures why { IfErr result (λ fault. IsWhy fault talk.new.link) }
{
    match give(talk, order, terms)? {
        Given::Ended(ending) => {
            talk.tell_ending(ending)?;
            Ok(ending)
        }
        Given::Refused(refusal) => Err(CtlFault::NotDone(refusal.into_sentence())),
    }
}

/// Gives an order, and asks what came of it.
pub(crate) fn give<S: Read + Write + Drop, M: Machine<S> + Drop>(
    talk: &mut Talk<S, M>,
    order: Order<'_>,
    terms: Terms<'_>,
) -> Result<Given, CtlFault>
    ensures done { IfOk result (IsGivenSo (order_view order.entry) (terms_view terms.entry) talk.old talk.new) }
    ensures why { IfErr result (λ fault. IsWhy fault talk.new.link) }
{
    match take(talk, order, terms)? {
        Some(refusal) => Ok(Given::Refused(refusal)),
        None => end_of(talk, order.ends_service(), terms.name),
    }
}

/// Gives an order, and answers how it is refused, if it is.
fn take<S: Read + Write + Drop, M: Machine<S> + Drop>(
    talk: &mut Talk<S, M>,
    order: Order<'_>,
    terms: Terms<'_>,
) -> Result<Option<Refusal>, CtlFault>
    ensures done { IfOk result (IsTakenSo ((order_view order.entry).text (terms_view terms.entry)) talk.old talk.new) }
    ensures why { IfErr result (λ fault. IsWhy fault talk.new.link) }
{
    match talk.try_ask(&Question::Order(order, terms))? {
        Asked::Answered(receipt) => {
            talk.tell_taken(&receipt)?;
            Ok(None)
        }
        Asked::Refused(refusal) => {
            if refusal.is_untold() {
                Err(CtlFault::NotUnderstood)
            } else {
                Ok(Some(refusal))
            }
        }
    }
}

/// What came of an order. A service that was to end may be gone before it tells.
fn end_of<S: Read + Write + Drop, M: Machine<S> + Drop>(
    talk: &mut Talk<S, M>,
    ends_service: bool,
    name: &str,
) -> Result<Given, CtlFault>
    ensures done { IfOk result (EndCame ends_service name.now talk.old talk.new) }
    ensures why { IfErr result (λ fault. IsWhy fault talk.new.link) }
{
    match talk.try_ask(&Question::Outcome(name)) {
        Ok(asked) => tell_outcome(talk, asked),
        Err(fault) => gone_by(ends_service, fault),
    }
}

/// What comes of an order of which no outcome is heard: a service that was to end may be gone.
fn gone_by(ends_service: bool, fault: CtlFault) -> Result<Given, CtlFault>
    ensures done { IfOk result (λ g. (g ≡ given.Ended Done) × (ends_service ≡ true)) }
    ensures fault { IfErr result (λ why. why ≡ fault) }
{
    if ends_service && is_gone(&fault) {
        Ok(Given::Ended(Ending::Done))
    } else {
        Err(fault)
    }
}

/// Whether nobody is there to be asked.
fn is_gone(fault: &CtlFault) -> bool {
    matches!(fault, CtlFault::Broken | CtlFault::NoConsole(_))
}

/// What came of an order, which is told.
fn outcome<S: Read + Write + Drop, M: Machine<S> + Drop>(
    talk: &mut Talk<S, M>,
    key: &str,
) -> Result<Given, CtlFault>
    ensures done { IfOk result (OutcomeCame key.now talk.old talk.new) }
    ensures why { IfErr result (λ fault. IsUntoldWhy fault talk.new.link) }
{
    let asked = talk.try_ask(&Question::Outcome(key))?;
    tell_outcome(talk, asked)
}

/// What came of an order, by what comes of asking for it, which is told.
fn tell_outcome<S: Read + Write + Drop, M: Machine<S> + Drop>(
    talk: &mut Talk<S, M>,
    asked: Asked,
) -> Result<Given, CtlFault>
    ensures done { IfOk result (IsOutcomeTold asked talk.old.told talk.new.told) }
    ensures link { talk.new.link ≡ talk.old.link }
    ensures moment { talk.new.moment ≡ talk.old.moment }
    ensures fault { IfErr result (OutcomeFault asked) }
{
    match asked {
        Asked::Answered(answer) => {
            talk.tell_replies(&answer)?;
            Ok(Given::Ended(ending_of(&answer.value)?))
        }
        Asked::Refused(refusal) => undone_by(refusal),
    }
}

/// What came of an order, which is told, and that all was done, if it was.
fn said<S: Read + Write + Drop, M: Machine<S> + Drop>(
    talk: &mut Talk<S, M>,
    key: &str,
) -> Result<Given, CtlFault>
    ensures done { IfOk result (OutcomeSaid key.now talk.old talk.new) }
    ensures why { IfErr result (λ fault. IsUntoldWhy fault talk.new.link) }
{
    match outcome(talk, key)? {
        Given::Ended(ending) => {
            talk.tell_ending(ending)?;
            Ok(Given::Ended(ending))
        }
        Given::Refused(refusal) => Ok(Given::Refused(refusal)),
    }
}

/// Tells what came of the order of a name or a number.
pub(crate) fn tell_order<S: Read + Write + Drop, M: Machine<S> + Drop>(
    talk: &mut Talk<S, M>,
    key: &str,
) -> Result<Ending, CtlFault>
    ensures done { IfOk result (IsSaid (IsCarriedOut key.now) talk.old talk.new) }
    ensures why { IfErr result (λ fault. IsWhy fault talk.new.link) }
{
    if !is_key(key) {
        return Err(CtlFault::NoOrder);
    }
    match said(talk, key)? {
        Given::Ended(ending) => Ok(ending),
        Given::Refused(refusal) => Err(CtlFault::Refused(refusal.into_sentence())),
    }
}

/// Asks over another connection what came of the order of a name, whose answer was lost. One that the console doesn't
/// know wasn't carried out, if its service is the one that ran as the talk began.
pub(crate) fn ask_again<S: Read + Write + Drop, M: Machine<S> + Drop>(
    talk: &mut Talk<S, M>,
    name: &str,
) -> Result<Ending, CtlFault>
    ensures done { IfOk result (IsAskedAgain name.now talk.old talk.new) }
    ensures why { IfErr result (λ fault. IsAskedWhy talk.old.moment fault talk.new.link) }
{
    let moment = talk.moment();
    talk.connect()?;
    match said(talk, name)? {
        Given::Ended(ending) => Ok(ending),
        Given::Refused(refusal) => {
            if refusal.is_another(moment) {
                Err(CtlFault::NotUnderstood)
            } else {
                Err(CtlFault::NotDone(refusal.into_sentence()))
            }
        }
    }
}

/// What came of a name that was ordered among others: a refusal is told.
pub(crate) fn tell_given<S: Read + Write + Drop, M: Machine<S> + Drop>(
    alloc: Global,
    talk: &mut Talk<S, M>,
    given: Given,
) -> Result<Outcome, CtlFault>
    ensures done { IfOk result (GivenTold given talk.old.told talk.new.told) }
    ensures link { talk.new.link ≡ talk.old.link }
    ensures moment { talk.new.moment ≡ talk.old.moment }
    ensures fault { IfErr result IsPlain }
{
    match given {
        Given::Ended(ending) => Ok(outcome_of(ending)),
        Given::Refused(refusal) => {
            let line = refused_line(alloc, refusal.sentence.as_str())?;
            talk.tell_line(line.as_str())?;
            Ok(Outcome::Refused)
        }
    }
}

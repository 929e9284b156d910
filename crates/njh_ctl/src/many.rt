//! Orders for a customer's files that are chosen, name by name.

ghost use Rattle.std.specs.Prelude.{◌≡◌, ◌++◌, IfOk, codes, string_bytes};
ghost use Rattle.njh_ctl.specs.Many.{entry_view, many_view, name_text, order_of, outcome_of};
ghost use Rattle.njh_ctl.specs.Orders.{order_view};

use crate::bodies::change_text;
use crate::counts::Outcome;
use crate::ending::Ending;
use crate::entries::{Entry, Share};
use crate::order::{Order, files_of};
use crate::shown::owner_text;
use njh_arguments::{Change, Owner};
use std::alloc::{AllocError, Global};

/// What is to become of a customer's files that are chosen.
#[derive(Clone, Copy)]
pub(crate) struct Many<'a> {
    pub(crate) change: Change<'a>,
    pub(crate) customer: &'a str,
    /// Nothing is ordered.
    pub(crate) dry_run: bool,
}

impl<'a> Many<'a> {
    /// The order for the files of an entry's name and owner, and how many of them there are.
    pub(crate) fn text(
        self,
        alloc: Global,
        entry: &Entry,
        share: Share,
    ) -> Result<String, AllocError>
        ensures { IfOk result (λ text. string_bytes text
            ≡ name_text (many_view self.entry) (entry_view entry.now) share) }
    {
        let order = change_text(alloc, self.change, entry.name.as_str())?;
        let order = order.as_str();
        let owner = owner_text(alloc, entry.node.as_str(), entry.user.as_str())?;
        let owner = owner.as_str();
        let (chosen, all) = (share.chosen, share.all);
        let more = if share.is_passed_over() {
            " files, passed over"
        } else {
            " files"
        };
        format!(in alloc; "{order} of {owner}: {chosen} of {all}{more}")
    }
}

/// The order for the files of an entry's name and owner.
pub(crate) fn order_of<'a>(many: Many<'a>, entry: &'a Entry) -> Order<'a>
    ensures { order_view result ≡ order_of (many_view many.entry) (entry_view entry.now) }
{
    let owner = Owner {
        node: entry.node.as_str(),
        user: entry.user.as_str(),
    };
    Order::Change(
        many.change,
        files_of(many.customer, entry.name.as_str(), Some(owner)),
    )
}

/// What comes of a name whose order ended so.
pub(crate) fn outcome_of(ending: Ending) -> Outcome
    ensures { result ≡ outcome_of ending }
{
    match ending {
        Ending::Done => Outcome::Done,
        Ending::TurnedDown | Ending::Wrong => Outcome::NotDone,
    }
}

/// What is told of an order that the hub refuses with a sentence.
pub(crate) fn refused_line(alloc: Global, sentence: &str) -> Result<String, AllocError>
    ensures { IfOk result (λ line. string_bytes line ≡ codes "refused: " ++ sentence.now) }
{
    format!(in alloc; "refused: {sentence}")
}

//! Laws of the definitions: what holds of all runs, whoever computes them.

ghost use Rattle.njh_hub.specs.Laws.{EachIsAlone, TwoListsAreLike, CustomersNeverMeet, OthersStay, OwnStepIsOwn};
ghost use Rattle.njh_hub.specs.Laws.{SentInOrder, TakenMessagesWait};

/// Whatever events come, each customer's part of the hub and the frames on its lines are those of
/// that customer alone over its own events.
pub fn each_is_alone()
    ensures { EachIsAlone }
{}

/// Any two lists of events with the same events of a customer lead it to the same frames and the
/// same part, on hubs where it stands alike.
pub fn two_lists_are_like()
    ensures { TwoListsAreLike }
{}

/// The headline: on any two hubs that were just opened on tables that agree on a customer, after
/// any two lists of events with the same events of that customer, the frames on its lines and its
/// files are equal, and are those of that customer alone on a hub of its own.
pub fn customers_never_meet()
    ensures { CustomersNeverMeet }
{}

/// A step on another customer's line, and new routes and orders of another customer, leave a
/// customer's part as it is, whatever becomes of the blocks that they share.
pub fn others_stay()
    ensures { OthersStay }
{}

/// A step on a customer's own line, its new routes and an order for it do what they do on a hub of
/// its own, whatever the others hold.
pub fn own_step_is_own()
    ensures { OwnStepIsOwn }
{}

/// The frames of the first events, and of the first bytes of the next, come first of the frames of
/// all.
pub fn sent_in_order()
    ensures { SentInOrder }
{}

/// A message that isn't refused waits behind the others on the line that its node goes by.
pub fn taken_messages_wait()
    ensures { TakenMessagesWait }
{}

//! Laws of the definitions: what holds of answers, whoever computes them.

ghost use Rattle.njh_answer.specs.Laws.{AnswersAreOfTheCustomer, NoFileIsPassedOver, OwnersOwnAll};
ghost use Rattle.njh_answer.specs.Laws.{PagesTellAll};

/// The files of an answer, and those behind it, are all from its place on.
pub fn pages_tell_all()
    ensures { PagesTellAll }
{}

/// Whatever files leave and come between two answers, the second, which goes on where the first
/// ended, passes over no file that wasn't told. One that was may be told again.
pub fn no_file_is_passed_over()
    ensures { NoFileIsPassedOver }
{}

/// A command without an owner is in the name of the one who owns every file of the name that it
/// says, of which there is one at least.
pub fn owners_own_all()
    ensures { OwnersOwnAll }
{}

/// What is told of a customer is by its own part of the hub and its own arrivals alone.
pub fn answers_are_of_the_customer()
    ensures { AnswersAreOfTheCustomer }
{}

//! What holds of arrivals, whoever notes them.

ghost use Rattle.njh_arrivals.specs.Laws.{NotedIsTold};

/// The moment at which a file came is told of it, and of other files what was told before.
pub fn noted_is_told()
    ensures { NotedIsTold }
{}

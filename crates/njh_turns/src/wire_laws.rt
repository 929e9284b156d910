//! Laws of the turns of wires: what holds of all, whoever takes them.

ghost use Rattle.njh_turns.specs.Service.{OwnServiceDecides};
ghost use Rattle.njh_turns.specs.WireLaws.{OwnWiresDecide};

/// Whatever all wires answer: the events of a customer are those of its own wires alone, in as many
/// turns.
pub fn own_wires_decide()
    ensures { OwnWiresDecide }
{}

/// Whatever all wires answer, and whichever routes and orders are given: the events of a customer in
/// a service are those of its own wires, its own new routes and its own orders alone, in as many
/// rounds.
pub fn own_service_decides()
    ensures { OwnServiceDecides }
{}

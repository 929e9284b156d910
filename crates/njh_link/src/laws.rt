//! Laws of what happens on a link, each the contract of a function that does nothing.
ghost use Rattle.std.specs.Prelude.{◌≡◌, ℕ, ◌≤◌, List, ◌++◌, flat_map};
ghost use Rattle.std.specs.List.{AllByRecursion};
ghost use Rattle.njh_link.specs.Acts.{AreAllowed, IsUnwritten, LinkAct, acknowledged_in, after_acts, came_in};
ghost use Rattle.njh_link.specs.Acts.{gave_in, given_in, out_in, texts_of, went_in};
ghost use Rattle.njh_link.specs.Links.{LinkState, first_state};
ghost use Rattle.njh_tcp.specs.Texts.{GivesTexts};
ghost use Rattle.njh_tcp.specs.Written.{line_bytes, ttb_bytes};
ghost use Rattle.njh_tcp.specs.declared.contact.Contact.{Contact};

/// What goes out is, in order, one TTB for each frame that is let out of those that the line writes,
/// and for each that the hub says by itself; what hasn't gone yet waits.
pub fn what_goes_out()
    ensures { (acts : List LinkAct) (s : LinkState)
        → s.waiting ++ flat_map ttb_bytes (out_in acts s) ≡ went_in acts s ++ (after_acts acts s).waiting }
{}

/// What the line is given is, in order, each frame that came, as it is on a bisync line, and each
/// Ack0 that it was owed; what isn't given yet is to be given.
pub fn what_is_given()
    ensures { (acts : List LinkAct) (s : LinkState)
        → s.giving ++ flat_map line_bytes (given_in acts s) ≡ gave_in acts s ++ (after_acts acts s).giving }
{}

/// The texts that are given are those of the TTRs that came, in their order, up to the first
/// refusal: none is lost and none is made, whatever the line writes meanwhile.
pub fn texts_come_in_order()
    ensures { (contact : Contact) (acts : List LinkAct)
        → GivesTexts (came_in acts) (texts_of (given_in acts (first_state contact)))
        (after_acts acts (first_state contact)).coming }
{}

/// Between two writes of the line it is given one Ack0 at most that it is owed.
pub fn ack0_is_owed()
    ensures { (acts : List LinkAct) (s : LinkState) → AreAllowed acts s → AllByRecursion IsUnwritten acts
        → acknowledged_in acts ≤ 1 }
{}

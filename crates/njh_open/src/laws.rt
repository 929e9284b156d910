//! Laws of what askers become and learn, each the contract of a function that does nothing.
ghost use Rattle.std.specs.Prelude.{◌≡◌, ◌≢◌, ℕ, List, Some};
ghost use Rattle.njh_tcp.specs.Controls.{control_in, exchanged, hosts_in, hosts_of};
ghost use Rattle.njh_tcp.specs.declared.control.ControlRecord.TheVariants.{Open, Ack};
ghost use Rattle.njh_tcp.specs.declared.control.Hosts.{Hosts};
ghost use Rattle.njh_open.specs.Verdicts.{IsVerdict, answer_to};
ghost use Rattle.njh_open.specs.declared.verdict.Vacancy.{Vacancy};
ghost use Rattle.njh_open.specs.declared.verdict.Vacancy.TheVariants.{Free};
ghost use Rattle.njh_open.specs.declared.verdict.Verdict.{Verdict};
ghost use Rattle.njh_open.specs.declared.verdict.Verdict.TheVariants.{Connected};

/// A line is given to an OPEN alone that names its node and the hub, and only while it is free; and
/// no other is answered ACK.
pub fn a_line_is_named()
    ensures given { (node hub bytes : List ℕ) (vacancy : Vacancy)
        → IsVerdict node hub vacancy bytes Connected
        → (control_in bytes ≡ Some (Open (record { from = node; to = hub }))) × (vacancy ≡ Free) }
    ensures answered { (verdict : Verdict) (hosts answer : Hosts)
        → answer_to verdict hosts ≡ Ack answer → verdict ≡ Connected }
{}

/// What is answered tells no name but those that were sent, exchanged.
pub fn no_name_is_told()
    ensures { (verdict : Verdict) (hosts : Hosts) → hosts_of (answer_to verdict hosts) ≡ exchanged hosts }
{}

//! Laws of what TTBs are and give, each the contract of a function that does nothing.
ghost use Rattle.std.specs.Prelude.{◌≡◌, ℕ, List, [], ◌∷◌, ◌++◌, Some, flat_map, length, map};
ghost use Rattle.std.specs.List.{AllByRecursion};
ghost use Rattle.njh_bisync.specs.ByteSteps.{feed_outcome as line_outcome};
ghost use Rattle.njh_bisync.specs.Reading.{Nothing};
ghost use Rattle.njh_tcp.specs.Blocks.{Ttb, Partial, in_head, Splits};
ghost use Rattle.njh_tcp.specs.ByteSteps.{outcomes_after, outcomes_of_pieces, rest_after, rest_after_pieces};
ghost use Rattle.njh_tcp.specs.Carried.{Carried, Text, IsCarried, IsShort, data_of, carried_by};
ghost use Rattle.njh_tcp.specs.Controls.{AreHosts, HaveSizes, control_bytes, control_in, hosts_of, record_of};
ghost use Rattle.njh_tcp.specs.Hearing.{Outcome, heard_as};
ghost use Rattle.njh_tcp.specs.Reading.{InHead, Reads, Rest, Shut, afresh, contact_over, outcome_list, rest_of};
ghost use Rattle.njh_tcp.specs.Texts.{GivesTexts, texts_given};
ghost use Rattle.njh_tcp.specs.Written.{frame_of, line_bytes, text_outcome, ttb_bytes, ttb_holding};
ghost use Rattle.njh_tcp.specs.declared.contact.Contact.{Contact};
ghost use Rattle.njh_tcp.specs.declared.control.ControlRecord.{ControlRecord};
ghost use Rattle.njh_tcp.specs.declared.fault.TtbFault.{TtbFault};

use njh_bisync::{control_reads_back, text_reads_back};

/// Bytes are TTBs and then a rest, in exactly one way.
pub fn one_splitting()
    ensures some { (bytes : List ℕ) → (ttbs : List Ttb) × (partial : Partial) × Splits bytes ttbs partial }
    ensures only { (bytes : List ℕ) (ttbs others : List Ttb) (partial other : Partial)
        → Splits bytes ttbs partial → Splits bytes others other → (ttbs ≡ others) × (partial ≡ other) }
{}

/// What is given of bytes, and what of their rest matters, by the grammar and by single bytes: they
/// are the same.
pub fn one_reading()
    ensures some { (contact : Contact) (bytes : List ℕ)
        → Reads contact bytes (outcomes_after (afresh contact) bytes) (rest_after (afresh contact) bytes) }
    ensures only { (contact : Contact) (bytes : List ℕ) (outcomes : List Outcome) (rest : Rest)
        → Reads contact bytes outcomes rest
        → (outcomes ≡ outcomes_after (afresh contact) bytes) × (rest ≡ rest_after (afresh contact) bytes) }
{}

/// What is given of bytes and more bytes is what is given of the first, and then what is given of
/// the others after the rest of the first. So it is the same in any pieces.
pub fn any_cutting()
    ensures reads { (contact : Contact) (front back : List ℕ) (outcomes : List Outcome) (rest : Rest)
        → Reads contact front outcomes rest
        → Reads contact (front ++ back) (outcomes ++ outcomes_after rest back) (rest_after rest back) }
    ensures outcomes { (rest : Rest) (front back : List ℕ)
        → outcomes_after rest (front ++ back)
        ≡ outcomes_after rest front ++ outcomes_after (rest_after rest front) back }
    ensures left { (rest : Rest) (front back : List ℕ)
        → rest_after rest (front ++ back) ≡ rest_after (rest_after rest front) back }
    ensures pieces { (rest : Rest) (pieces : List (List ℕ))
        → let bytes = flat_map (λ piece. piece) pieces in
        (outcomes_of_pieces rest pieces ≡ outcomes_after rest bytes)
        × (rest_after_pieces rest pieces ≡ rest_after rest bytes) }
{}

/// The texts that are given are those of the TTRs that came, in their order, up to the first
/// refusal: whatever contact is taken, and whenever that ends.
pub fn texts_are_those_that_came()
    ensures begins { (contact : Contact) → GivesTexts [] [] (afresh contact) }
    ensures goes_on { (seen : List ℕ) (texts : List (List ℕ)) (rest : Rest) (more : List ℕ)
        → GivesTexts seen texts rest
        → GivesTexts (seen ++ more) (texts ++ texts_given (outcomes_after rest more)) (rest_after rest more) }
    ensures contact { (seen : List ℕ) (texts : List (List ℕ)) (rest : Rest) → GivesTexts seen texts rest
        → GivesTexts seen texts (contact_over rest) }
{}

/// After a refusal nothing more is given.
pub fn a_refusal_is_last()
    ensures given { (fault : TtbFault) (bytes : List ℕ) → outcomes_after (Shut fault) bytes ≡ [] }
    ensures stays { (fault : TtbFault) (bytes : List ℕ) → rest_after (Shut fault) bytes ≡ Shut fault }
{}

/// A TTB that is written is one TTB with one TTR, and is read as the frame that it carries: a text
/// at any contact, an enquiry and an Ack0 as the contact says. Texts come in the order in which they
/// were written.
pub fn ttb_reads_back()
    ensures splits { (carried : Carried) → IsCarried carried
        → Splits (ttb_bytes carried) (ttb_holding (data_of carried) ∷ []) (in_head []) }
    ensures carries { (carried : Carried) → IsCarried carried → carried_by (data_of carried) ≡ Some carried }
    ensures read { (contact : Contact) (carried : Carried) → IsCarried carried
        → let heard = heard_as contact (data_of carried) (Some carried) in
        (outcomes_after (afresh contact) (ttb_bytes carried) ≡ outcome_list heard.outcome)
        × (rest_after (afresh contact) (ttb_bytes carried) ≡ rest_of heard.hearing (InHead [])) }
    ensures texts { (contact : Contact) (texts : List (List ℕ))
        → AllByRecursion (λ text. IsCarried (Text text)) texts
        → outcomes_after (afresh contact) (flat_map (λ text. ttb_bytes (Text text)) texts) ≡ map text_outcome texts }
{}

/// What is given on for the line is read there as the same frame, whatever follows.
pub fn line_reads_the_same()
    ensures { (carried : Carried) (more : List ℕ) → IsShort carried
        → line_outcome Nothing (line_bytes carried ++ more)
        ≡ record { taken = length (line_bytes carried); frame = Some (frame_of carried); rest = Nothing } }
{
    text_reads_back();
    control_reads_back();
}

/// A control record that is written is read as that record, whatever its addresses are. R isn't
/// looked at in OPEN and ACK.
pub fn control_record_reads_back()
    ensures back { (control : ControlRecord) → AreHosts (hosts_of control)
        → control_in (control_bytes control) ≡ Some control }
    ensures unread { (kind rhost rip ohost oip other_rip other_oip : List ℕ) (reason : ℕ)
        → HaveSizes kind rhost rip ohost oip → HaveSizes kind rhost other_rip ohost other_oip
        → control_in (record_of kind rhost rip ohost oip reason)
        ≡ control_in (record_of kind rhost other_rip ohost other_oip reason) }
{}

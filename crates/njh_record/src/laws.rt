//! Laws of the definitions, which hold of every list of bytes. Each function does nothing: its
//! contract is the law.

ghost use Rattle.std.specs.Prelude.{◌≡◌, ℕ, ◌+◌, ◌*◌, ◌<◌, ◌≤◌, List, [], ◌++◌, length, drop, Result};
ghost use Rattle.njh_record.specs.Bytes.{AreBytes};
ghost use Rattle.njh_record.specs.declared.End.{End};
ghost use Rattle.njh_record.specs.declared.RecordFault.{RecordFault};
ghost use Rattle.njh_record.specs.Spelling.{Spelling};
ghost use Rattle.njh_record.specs.Reading.{Unspells};
ghost use Rattle.njh_record.specs.Unspelled.{Unspelled, Fault, ReadsAs, record_at_front};
ghost use Rattle.njh_record.specs.Writing.{spelling_of};

/// The function that reads gives what is in the bytes, and nothing else is there: a spelling at
/// their front, or a bad string control byte after whole items, or the front of a spelling alone.
pub fn one_reading()
    ensures found { (bytes : List ℕ) → AreBytes bytes → ReadsAs bytes (record_at_front bytes) }
    ensures only { (bytes : List ℕ) (read : Result Unspelled Fault) →
        ReadsAs bytes read → record_at_front bytes ≡ read }
{}

/// What follows a spelling begins right after it, and a spelling has a byte at least.
pub fn rest_behind()
    ensures { (bytes : List ℕ) (found : Unspelled) → record_at_front bytes ≡ Ok found →
        (used : ℕ) × (0 < used) × (used ≤ length bytes) × (found.rest ≡ drop used bytes) }
{}

/// Of any bytes one answer of `unspell` is right, with one record, and no other.
pub fn one_answer()
    ensures some { (bytes : List ℕ) → AreBytes bytes → (answer : Result (ℕ × End) RecordFault)
        × (contents : List ℕ) × Unspells bytes answer contents }
    ensures only { (bytes : List ℕ) (answer other : Result (ℕ × End) RecordFault) (contents others : List ℕ) →
        Unspells bytes answer contents → Unspells bytes other others
        → (answer ≡ other) × (contents ≡ others) }
{}

/// No spelling is a proper prefix of another.
pub fn no_proper_prefix()
    ensures { (spelling more contents others : List ℕ) (end other : End) →
        Spelling spelling contents end → Spelling (spelling ++ more) others other → more ≡ [] }
{}

/// A spelling is read as what it spells, whatever follows it.
pub fn reads_spellings()
    ensures { (spelling contents rest : List ℕ) (end : End) → Spelling spelling contents end →
        record_at_front (spelling ++ rest) ≡ Ok (record { contents = contents; end = end; rest = rest }) }
{}

/// The one spelling of a record is a spelling of it.
pub fn one_spelling()
    ensures { (contents : List ℕ) → Spelling (spelling_of contents) contents End.Record }
{}

/// What is written of a record is read back as that record, whatever follows it.
pub fn reads_back()
    ensures { (contents rest : List ℕ) → record_at_front (spelling_of contents ++ rest)
        ≡ Ok (record { contents = contents; end = End.Record; rest = rest }) }
{}

/// A spelling has a byte at least, and at most a byte more for each 63 of the record, and two: 262
/// for a record of 256.
pub fn spelling_bounds()
    ensures some { (contents : List ℕ) → 0 < length (spelling_of contents) }
    ensures growth { (contents : List ℕ) →
        63 * length (spelling_of contents) ≤ 64 * length contents + 125 }
    ensures longest { (contents : List ℕ) → length contents ≤ 256 →
        length (spelling_of contents) ≤ 262 }
{}

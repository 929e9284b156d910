//! Laws of the definitions that the contracts cite. A caller has one by calling its function.

ghost use Rattle.std.specs.Prelude.{◌≡◌, ◌-◌, ◌<◌, ◌↔◌, ◌++◌, ℕ, false, IsTrue, List, Ok, Some, length, replicate};
ghost use Rattle.std.specs.List.{list_all};
ghost use Rattle.njh_ebcdic.specs.Characters.{byte_of_character, character_of, is_plain, printed_character, shown_text};
ghost use Rattle.njh_ebcdic.specs.Names.{ebcdic_byte, is_name, is_name_byte, padded_field, without_end_blanks, upper};
ghost use Rattle.njh_ebcdic.specs.Names.{within};
ghost use Rattle.njh_ebcdic.specs.Reading.{name_of_field, name_of_text, name_of_word};

/// The byte of a character has that character, and the character of a byte has that byte. The
/// bytes of the hub's own words are those of the table.
pub fn characters_and_bytes()
    ensures both_ways { (byte character : ℕ)
        → (character_of byte ≡ Some character) ↔ (byte_of_character character ≡ Some byte) }
    ensures plain { (character : ℕ) → IsTrue (is_plain character)
        → byte_of_character character ≡ Some (ebcdic_byte character) }
{}

/// Folding makes a capital of each lower-case letter, and leaves all else. What is folded stays.
pub fn folding()
    ensures letters { (byte : ℕ) → byte < 256 → IsTrue (within 97 122 (printed_character byte))
        → printed_character (upper byte) ≡ printed_character byte - 32 }
    ensures others { (byte : ℕ) → byte < 256 → within 97 122 (printed_character byte) ≡ false → upper byte ≡ byte }
    ensures twice { (byte : ℕ) → upper (upper byte) ≡ upper byte }
{}

/// Trimming takes blanks from the end, all of them and nothing else, and padding adds them again.
pub fn trimming()
    ensures blanks { (bytes : List ℕ)
        → without_end_blanks bytes ++ replicate (length bytes - length (without_end_blanks bytes)) 0x40 ≡ bytes }
    ensures twice { (bytes : List ℕ) → without_end_blanks (without_end_blanks bytes) ≡ without_end_blanks bytes }
    ensures padding { (word : List ℕ) → IsTrue (list_all is_name_byte word)
        → without_end_blanks (padded_field word) ≡ word }
{}

/// A name is read from its field, from its word and from what `Display` writes of it, each time
/// as the same eight bytes.
pub fn names_read_back()
    ensures field { (name : List ℕ) → IsTrue (is_name name) → name_of_field name ≡ Ok name }
    ensures word { (name : List ℕ) → IsTrue (is_name name) → name_of_word (without_end_blanks name) ≡ Ok name }
    ensures text { (name : List ℕ) → IsTrue (is_name name)
        → name_of_text (shown_text (without_end_blanks name)) ≡ Ok name }
{}

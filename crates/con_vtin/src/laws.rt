//! What the bytes of a terminal determine.
ghost use Rattle.std.specs.Prelude.{◌≡◌, ℕ, List, ◌++◌};
ghost use Rattle.con_units.specs.Split.{split_after, with_items};
ghost use Rattle.con_units.specs.Laws.{IsReadSo};
ghost use Rattle.con_vtin.specs.Words.Keys.{grammar};
ghost use Rattle.con_vtin.specs.Characters.{ReadsCharacters};
ghost use Rattle.con_vtin.specs.Words.Pieces.{IsReadInPieces};
ghost use Rattle.con_vtin.specs.ReadBack.{ReadBack};
ghost use Rattle.con_vtin.specs.Counts.{SendsWithin};

/// Bytes are read by the three cases of their sequences, which determine the keys.
pub fn is_read_by_cases()
    ensures { IsReadSo grammar }
{}

/// However bytes are cut, their keys are those of the whole.
pub fn is_read_however_cut()
    ensures { (held front rest : List ℕ)
        → split_after grammar held (front ++ rest)
        ≡ with_items (split_after grammar held front).items (split_after grammar (split_after grammar held front).tail rest) }
{}

/// The pieces of bytes, keys and control sequences that give none, in their order: each byte's are its keys, and then the
/// sequence that it ended without one.
pub fn is_read_in_pieces()
    ensures { IsReadInPieces }
{}

/// Which keys are read back from the units that they send.
pub fn is_read_back()
    ensures { ReadBack }
{}

/// Bytes without ESC are read as the characters that they are, ill-formed ones as U+FFFD.
pub fn is_read_as_characters()
    ensures { ReadsCharacters }
{}

/// Bytes give no more keys than there are bytes, and these keys send no more units than there are bytes: both counts, and
/// the bytes held then, are at most the bytes held before and the bytes fed. So the records of n bytes, a key-down and
/// a key-up for each key, or one record for each unit, are at most two for each of the n bytes and of the 32 that may be held.
pub fn is_sent_within_its_bytes()
    ensures { SendsWithin }
{}

//! Keys from the bytes of a terminal, and the units that a key sends.
//!
//! A [`KeyReader`] is fed byte by byte and gives keys, by the split `keys` of whole byte strings (`specs/Words/Keys`, by
//! the cases of `specs/Keys`, and row by row `specs/Table`): a byte string falls in one way into keys and an unfinished tail. Contracts see a reader as that
//! tail, of at most 32 bytes. [`KeyReader::quiet`] says that nothing comes after it for a while: a lone ESC is then the
//! escape key, and each other byte held one key of U+FFFD. [`KeyReader::ended`] tells the control sequence that the last byte
//! ended and that gave no key; so keys and such sequences are pieces of the bytes, in their order (`specs/Pieces`). All keys
//! are key-downs with repeat 1 and scan 0.
//!
//! [`sequence_of`] is the way back: the units that a key sends to a program that reads virtual terminal input.
//! [`Keys`] is a list of keys on its own.
//!
//! The rows are those of xterm's function keys and of ECMA-48's control sequences; the keys made of them, the limit of 32
//! bytes and the rule for quiet are this project's own. No call takes memory.
//!
//! Never promised: how long quiet lasts, and what a real terminal sends for a key.
#![tactic(auto)]

mod character;
mod ended;
pub mod keys;
pub mod laws;
pub mod reader;
pub mod sequence;
mod table;
mod unfinished;

pub use keys::Keys;
pub use laws::{
    is_read_as_characters, is_read_back, is_read_by_cases, is_read_however_cut, is_read_in_pieces,
    is_sent_within_its_bytes,
};
pub use reader::KeyReader;
pub use sequence::{Sequence, sequence_of};

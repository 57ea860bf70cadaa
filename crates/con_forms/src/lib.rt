//! A console's history is one that a report determines.
//!
//! con_machine says what the console answers, con_trace what lines a report may have; neither knows of the other. Here is what joins them:
//!
//! - [`an_answer_has_its_form`] is the law that every event, in whatever state of the console, is answered by the form that con_lines gives it
//!   (`HasForm` of `specs/Formed`): the kind of answer, how many numbers, which of them is a flag, and that cells have plain shades.
//! - [`types_are_kept`] reads entries, answers, lengths and an end, and tells of them what their types keep (`Kept` of `specs/Kept`): that a unit
//!   has 16 bits, a number 32. It changes nothing; it is for what the console's definition, which counts without bounds, does not say.
//! - [`a_legal_history_is_told`] is the law that with both of these the lines of a legal history are those of a history of a report
//!   (`IsHistory` of con_trace), up to a picture that has no length (`told` of `specs/Told`), and that they are all where each picture has one.
//!
//! A picture counts as answered by done, as a report has it. Never promised: that a picture has a length.
#![tactic(auto)]

pub mod keeping;
pub mod laws;

pub use keeping::types_are_kept;
pub use laws::{a_legal_history_is_told, an_answer_has_its_form};

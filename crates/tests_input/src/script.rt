//! Sessions of documents and of numbers, and reports: callers of sessions, of values and of reports, generated sessions and limits; documents and reports are
//! data of `cases`.
mod callers;
mod drawn;
mod reports;
mod rows;
mod values;

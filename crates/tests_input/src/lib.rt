//! Tests of the outside, of keys and mouse reports, of handles, processes and handlers, and of sessions, as a caller sees them: what no session
//! shows, and callers that use each clause with values that they do not know. All of it is proved with the tests, so once.
#![tactic(auto)]

#[cfg(test)]
mod input;
#[cfg(test)]
mod owners;
#[cfg(test)]
mod script;

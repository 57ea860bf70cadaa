//! Tests of values, cells, screens, the specified terminal and the painter, as a caller sees them: what no session shows, and callers that use
//! each clause at every value. All of it is proved with the tests, so once.
#![tactic(auto)]

#[cfg(test)]
mod cells;
#[cfg(test)]
mod paint;
#[cfg(test)]
mod screen;
#[cfg(test)]
mod screens;
#[cfg(test)]
mod term;
#[cfg(test)]
mod values;

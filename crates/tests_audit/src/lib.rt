//! Callers of con_audit that use its promises. What audits find is in crate `cases`, `data/audit.cases`.
#![tactic(auto)]

pub mod callers;

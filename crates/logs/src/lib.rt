// The log: the table of record kinds, writing a record, and reading a whole log in one pass.
#![tactic(auto)]

pub mod kind;
pub mod opening;
pub mod past;
pub mod reading;
pub mod scan;
pub mod source;
pub mod steps;
pub mod writing;

// The tree in the pages: the way down to a record, the test of a well-formed tree, all records in key order, and a new tree.
#![tactic(auto)]

pub mod build;
pub mod find;
pub mod list;
pub mod walk;
pub mod well;

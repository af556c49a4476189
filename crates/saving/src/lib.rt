// Saving and deleting: the pages that a put or a delete changes, planned as drafts and drawn one at a time.
#![tactic(auto)]

pub mod delete;
pub mod draft;
pub mod draw;
pub mod plan;
pub mod put;
pub mod route;

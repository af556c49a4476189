// Pages of 256 bytes: what stands in one, its form, the changes that a log record makes, new pages by value, and where pages stand.
#![tactic(auto)]

pub mod bounds;
pub mod change;
pub mod form;
pub mod image;
pub mod place;
pub mod view;

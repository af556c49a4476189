// Units: which one is chosen, how much room its steps need, which entry an LM takes, what one record does to its page, and a log repeated.
#![tactic(auto)]

pub mod again;
pub mod apply;
pub mod choice;
pub mod compact;
pub mod entry;
pub mod order;
pub mod room;

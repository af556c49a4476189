// What the twelve calls have in common: the two numbers beside the log, test 2, and a log begun anew. The calls' definitions stand in
// specs/Calls.antt, each from all that the call is lent to all that it leaves; the calls themselves stand in crates of their own (`building`,
// `beginning`, `putting`, `stepping`, `recovering`, `flushing`, `forcing`, `checkpointing`, `finding`, `answering`). None of them has a `requires`: each
// tests what it is lent, in the order that document 01 or 02 gives, and its contract says that all it leaves is what its definition leaves.
#![tactic(auto)]

pub mod fresh;
pub mod known;

pub use known::{Answer, Numbers};

// A unit carried forward: its next record appended and the page change of that record made. Step does it once, recovery until no unit is open.
#![tactic(auto)]

mod appending;

pub use appending::append;

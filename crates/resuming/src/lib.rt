// An open put or delete carried on: its changed pages are worked out anew and compared with the images logged, and the first record that it
// lacks is appended.
#![tactic(auto)]

pub mod carrying;
pub mod lacking;
pub mod working;

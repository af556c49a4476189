// No code: the proof that every unit keeps the tree well formed, with its records.
#![tactic(auto)]

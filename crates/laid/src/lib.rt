// No code: the proof that build's layout is a well-formed tree of the records it was given.
#![tactic(auto)]

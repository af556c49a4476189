// No code: the proof that what a put or a delete changes leaves a well-formed tree, with the record at its key or without the key.
#![tactic(auto)]

// No product code: demand 3, over the calls' definitions, and that the contracts fix their results.
#![tactic(auto)]

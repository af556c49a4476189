// No product code: small facts of the definitions, computed, each of which an edit that must be refused denies.
#![tactic(auto)]

// No product code: the rows of document 01's "Numbers to try" that are marked P, and puts and deletes of document 02 on their trees, over the
// calls' definitions.
#![tactic(auto)]

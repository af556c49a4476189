// No code: how a proof by hand goes through a call that hands its parameters on to another, whatever these are.
#![tactic(auto)]

// Any sequence of calls from reset: theorems only, no code.
#![tactic(auto)]

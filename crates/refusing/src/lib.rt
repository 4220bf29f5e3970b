// The refusals of each exported function: theorems only, no code.
#![tactic(auto)]

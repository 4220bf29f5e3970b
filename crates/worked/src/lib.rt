// Worked histories: calls that meet the premises of the theorems on histories; no code.
#![tactic(auto)]

// What an audit says holds: theorems only, no code.
#![tactic(auto)]

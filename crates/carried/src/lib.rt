// Exported calls one after the other, over the bytes that they hand on. No code: definitions and theorems.
#![tactic(auto)]

// The checked figures that carry a star: one proved table. No code.
#![tactic(auto)]

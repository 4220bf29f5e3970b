// What C and Rust call for script lines and scripts. Each function answers as those of `embed` do.
#![tactic(auto)]

pub mod clean;
pub mod record;
pub mod step;

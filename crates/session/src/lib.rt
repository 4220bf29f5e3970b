// One step of a bus script: a line is carried out and answered.
#![tactic(auto)]

pub mod answer;
pub mod session;

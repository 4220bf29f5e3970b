// What an audit says of a line of a recording, and its summary.
#![tactic(auto)]

pub mod line;
pub mod summary;

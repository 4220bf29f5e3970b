// One line of the bus script: its digits, the reader, the frame that it says.
#![tactic(auto)]

pub mod hex;
pub mod line;
pub mod reader;

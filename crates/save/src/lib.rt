// One save file: state record, RAM and frame store of one moment, with a checksum over all of them.
#![tactic(auto)]

mod parts;
pub mod reading;
pub mod writing;

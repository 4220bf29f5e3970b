// Plates as files that others read: the picture area as a grey image (grey).
#![tactic(auto)]

pub mod grey;

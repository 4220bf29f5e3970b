// Frames written as lines: what a live session is recorded with.
#![tactic(auto)]

pub mod record;

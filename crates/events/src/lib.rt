// The event of a line of a recording, its text, and the book that counts it.
#![tactic(auto)]

pub mod book;
pub mod event;
pub mod sight;
pub mod text;

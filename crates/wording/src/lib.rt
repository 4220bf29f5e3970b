// The events of an audit as text.
#![tactic(auto)]

pub mod events;
mod words;

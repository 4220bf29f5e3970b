// The museum desk: the contrast levels people know, chosen by light set, level and dithering (choice), as document 001 has them (levels),
// and choices that desks know by name (stored).
#![tactic(auto)]

pub mod choice;
mod levels;
pub mod stored;

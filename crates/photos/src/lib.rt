// Colour photographs in: a Netpbm file of kind P6 becomes an image.
#![tactic(auto)]

pub mod header;
pub mod photo;

//! The decoders: identity and timings of an image, and the clock table of a timing record.
//! An image gives a record whole or a refusal with document 01's number; the names and their order are those of the Rust.
#![tactic(auto)]

pub mod clocks;
pub mod identity;
pub mod timing;

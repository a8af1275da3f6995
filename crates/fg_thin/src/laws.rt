//! Laws of thinned encodings and of made streams. Each is the contract of a function that does nothing, or only calls laws of
//! other crates.

pub mod few;
pub mod payloads;

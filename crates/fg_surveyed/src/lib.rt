//! What a survey of an encoding is worth, of which records were left out. It has laws alone.
#![tactic(auto)]

pub mod laws;

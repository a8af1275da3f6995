//! Tests of `fg_turn`, `fg_pipe` and `fg_crew`. They stand apart, since a crate with tests is proved once more with them.
#![tactic(auto)]

#[cfg(test)]
mod crew;
#[cfg(test)]
mod pipe;
#[cfg(test)]
mod turn;

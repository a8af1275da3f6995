//! Tests of `fg_ts`, `fg_words` and `fg_peel`. They stand apart, since a crate with tests is proved once more with them.
#![tactic(auto)]

#[cfg(test)]
mod packets;
#[cfg(test)]
mod peeling;
#[cfg(test)]
mod words;

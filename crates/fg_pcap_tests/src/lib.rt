//! Tests of `fg_pcap`. They stand apart, since a crate with tests is proved once more with them.
#![tactic(auto)]

#[cfg(test)]
mod tests;

//! Tests of `fg_run`: of a source, a sink or an outlet that fails, of workers whom a gate holds, and of batches. What a command line
//! can show is in `tools/program`. They stand apart, since a crate with tests is proved once more with them.
#![tactic(auto)]

#[cfg(test)]
mod tests;

//! Desks that follow scripts: what comes, what the desk answers, and what its plays show.

mod blocks;
mod holds;
mod plain;
mod plays;
mod random;
mod replies;
mod runs;
mod script;
mod skips;

//! Tallies of a board, as one thread has them.

mod crossing;
mod gone;
mod plain;
mod random;
mod row;
mod scene;
mod stage;

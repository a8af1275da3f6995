//! Boards on which three passes take their turns, in an order that is given, at random, or as threads.

mod admit;
mod arriving;
mod ask;
mod bare;
mod both;
mod crossing;
mod fates;
mod holds;
mod jobs;
mod jumps;
mod random;
mod scene;
mod script;
mod threads;
mod twins;

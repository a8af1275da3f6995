mod board;
mod pair;
mod stock;
mod waking;

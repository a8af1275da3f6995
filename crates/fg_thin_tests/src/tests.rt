//! Made streams and thinned encodings by example.
mod made;
mod thinned;

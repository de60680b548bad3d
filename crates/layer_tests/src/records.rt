//! Tests of trailers, the log and swaps that no run of the program makes.
mod calls;
mod flashes;
mod states;
mod torn;

//! Tests of values: headers, steps and texts that no clause specifies and no run of the program
//! shows.
mod headers;
mod steps;
mod texts;

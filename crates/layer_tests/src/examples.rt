//! An example of each library, at its main call.
//!
//! The lines between `// example: CRATE::CALL` and `// end of example` are those that the doc
//! comment of the call shows. `tools/docs` copies them.

mod choices;
mod devices;
mod flashes;
mod images;

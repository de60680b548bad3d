//! Tests of images, manifests and uploads that only a caller of the library can make.
//!
//! They are of the number of bytes that are read, flashes that are off or longer than their map,
//! values that no command accepts, the memory that an image takes, and the sentences of errors. The
//! tests in `tests/` run the built program.
mod errors;
mod flashes;
mod making;
mod manifests;
mod reads;
mod samples;
mod uploads;

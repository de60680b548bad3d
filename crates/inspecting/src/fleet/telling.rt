//! How the results of a plan are written.

use crate::fleet::summary::Summary;
use device_texts::Form;

/// What is written of a fleet.
#[derive(Clone, Copy)]
pub enum Telling {
    /// Each device with its result, in this form.
    Devices(Form),
    /// A summary in this form: what devices do, how many do it, and which is the first.
    Summary(Form),
}

/// Where the results go while a fleet is read.
#[derive(Drop)]
pub enum Told {
    /// Each is written in this form.
    Written(Form),
    /// They are counted, to be written in this form.
    Counted(Form, Summary),
}

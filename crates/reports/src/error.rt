//! The faults of texts, with the line where they are.

use thiserror::Error;

/// A text is no table. The number is that of the first line, from 1, with which no table continues.
/// It is 1 if the text has no lines.
#[derive(Clone, Copy, Debug, PartialEq, Eq, Error)]
#[error("no table continues with line {0}")]
pub struct BadTable(pub usize);

/// A text is no report. The number is that of the first line, from 1, with which no report
/// continues. It is 1 if the text has no lines.
#[derive(Clone, Copy, Debug, PartialEq, Eq, Error)]
#[error("no report continues with line {0}")]
pub struct BadReport(pub usize);

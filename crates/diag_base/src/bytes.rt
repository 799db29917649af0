//! Bytes, as those of a file or of a report.
use lists::Row;

/// A list of bytes, as a file's or a report's.
pub type Bytes = Row<u8>;

//! A group that has no child yet.
use crate::header::Header;

/// The last line, where it is a group: its number and what it says.
#[derive(Clone, Copy)]
pub(crate) struct Pending {
    pub(crate) line: u32,
    pub(crate) header: Header,
}

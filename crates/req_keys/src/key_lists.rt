//! Lists of keys.
use crate::key::Key;
use lists::Row;

/// A list of keys.
pub type Keys = Row<Key>;

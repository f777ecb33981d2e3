//! An event's bytes: how they are appended, and how they read back.

pub(crate) mod decoding;
pub(crate) mod encoding;

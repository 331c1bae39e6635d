// A shelf in memory.
pub(crate) mod draft;
pub(crate) mod file;
mod schedule;
pub(crate) mod shelf;

/// The places of a held set in the list of all pairs: from `from` on, and before `to`.
#[derive(Clone, Copy, Debug, PartialEq, Eq)]
pub struct Span {
    pub from: usize,
    pub to: usize,
}

/// What a publication or an ageing that failed may have left, with the stamp of its pair. Its event
/// is in doubt if the call settled the block or hid the index.
#[derive(Clone, Copy, Debug, PartialEq, Eq)]
pub enum Doubt {
    /// No publication and no ageing failed.
    Nothing,
    /// A publication. Its block was not settled, so no crash leaves the pair.
    Unsettled(u64),
    /// A publication. Its block was settled, and a crash may leave the pair or not.
    Settled(u64),
    /// A removal. Its index was not hidden, so each crash leaves the pair.
    Unhidden(u64),
    /// A removal. Its index was hidden, and a crash may leave the pair or not.
    Hidden(u64),
}

//! What a check counts.

/// How much is kept.
#[derive(Clone, Copy, Debug, PartialEq, Eq)]
pub struct Counts {
    pub users: u64,
    pub roles: u64,
    /// Tables, without the built-in ones.
    pub tables: u64,
    /// Committed rows.
    pub rows: u64,
    /// Audit policies.
    pub policies: u64,
    /// Fine-grained policies.
    pub fga: u64,
    /// Records of the trail.
    pub records: u64,
    /// The number of the last instance.
    pub instance: u32,
    /// The used length of the journal's area.
    pub bytes: u64,
}

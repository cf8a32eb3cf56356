//! How far a failed append or flip came.

/// How far the last append or flip came, where it failed and no mend has succeeded since.
#[derive(Clone, Copy, Debug, PartialEq, Eq)]
pub enum Doubt {
    /// It didn't fail.
    Settled,
    /// The bytes behind the gate may stand in part. The gate's byte wasn't written.
    Body,
    /// The gate's byte was written, perhaps in part, and isn't synced.
    Gate,
    /// The same of the closed gate that was to stand at the end of the area.
    Edge,
    /// The other area may be written in part. The byte of Head wasn't written.
    Other,
    /// The byte of Head was written, perhaps in part, and isn't synced.
    Head,
}

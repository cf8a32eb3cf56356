//! Where a journal stands in its area.
use crate::Doubt;
use au_io::Area;

/// Where a journal stands in its area. Contracts see its fields.
#[derive(Clone, Copy, Debug)]
pub struct Seat {
    /// The present area.
    pub(crate) area: Area,
    /// Its limit in bytes.
    pub(crate) limit: u32,
    /// The size of the mounted area when it was mounted.
    pub(crate) size: u64,
    /// The used length: where the next gate is.
    pub(crate) used: u64,
    /// Where the frame ends that `next_length` found, or the used length.
    pub(crate) reach: u64,
    /// The walk came to a gate that isn't open, or to the end.
    pub(crate) ended: bool,
    /// The area ends at the used length, with no gate there.
    pub(crate) bare: bool,
    /// How far the last append or flip came.
    pub(crate) doubt: Doubt,
}

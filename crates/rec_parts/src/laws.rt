//! What holds of the parts of frames.
ghost use Rattle.rec_parts.specs.PartsExact.{ArePartsExact};

/// Each part is read at the front of bytes exactly where it is spelled there: what is read was
/// spelled, and what is spelled is read, whatever follows it.
pub fn parts_are_exact()
    ensures { ArePartsExact }
{}

//! Keeping what is opened off the places of the standard streams.
use std::fs::File;

/// Three files of nothing. A program that was started with a standard stream closed would give the
/// place of that stream to the next file or socket that it opens, and write its answers there. The
/// first opened files take these places instead: a closed input is then at its end, and a write to
/// a closed output fails.
#[derive(Drop)]
pub(crate) struct StandardStreams {
    _first: File,
    _second: File,
    _third: File,
}

impl StandardStreams {
    /// Takes the places that are free. `None`: `/dev/null` can't be opened for reading.
    pub(crate) fn hold(rt: HostRuntime) -> Option<StandardStreams> {
        Some(StandardStreams {
            _first: File::open(&rt, "/dev/null").ok()?,
            _second: File::open(&rt, "/dev/null").ok()?,
            _third: File::open(&rt, "/dev/null").ok()?,
        })
    }
}

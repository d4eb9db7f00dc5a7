//! Why less than a whole recording is shown.

/// Why a scan ends before its recording does.
#[derive(Clone, Copy, Debug, PartialEq, Eq)]
pub enum Cut {
    /// The source failed: the file could not be opened, or not be read to its end.
    Unread,
    /// The recording has more than 2^33 bytes.
    TooLong,
    /// The sink failed.
    Unwritten,
    /// Memory was not to be had.
    NoMemory,
}

/// Why what takes an input went no further.
#[derive(Clone, Copy, Debug, PartialEq, Eq)]
pub enum Ending {
    /// No extent of the pages that are needed was available.
    Space,
    /// The flash failed.
    Flash,
    /// The sink failed.
    Sink,
}

/// Why an input was not taken to its end.
#[derive(Clone, Copy, Debug, PartialEq, Eq)]
pub enum InputEnding {
    /// The input failed.
    Input,
    /// It has more than 16,777,216 bytes.
    Long,
    /// What takes it ended before it did.
    Early(Ending),
}

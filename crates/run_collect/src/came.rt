use coffee_layout::BadImage;

/// What a collection came to.
#[derive(Clone, Copy, PartialEq, Eq, Debug)]
pub enum Came {
    /// The image was collected, and this many sectors were erased.
    Collected { erased: u16 },
    /// The image is not sound, and this is its first broken rule.
    Refused(BadImage),
    /// The flash failed.
    Failed,
}

use run_input::InputEnding;

/// What a run came to whose words are those of a form.
#[derive(Clone, Copy, PartialEq, Eq, Debug)]
pub enum Came {
    /// A session was opened, and went so far.
    Opened(Result<(), InputEnding>),
    /// The image is not sound, and that was written.
    Refused,
    /// The image is not sound, and that was not wholly written.
    Unsaid,
    /// The flash failed before a session was opened.
    Failed,
}

/// Which object failed, of those that a command of the database touches.
#[derive(Clone, Copy, Debug, PartialEq, Eq)]
pub enum Fault {
    /// The flash that keeps the files.
    Flash,
    /// The sink that takes the reply.
    Sink,
}

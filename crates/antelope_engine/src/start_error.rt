use session_start::BrokenRule;

/// Why a session did not start; the files are handed back.
#[derive(Drop)]
pub enum StartError<V> {
    /// The files are no sound database.
    Bad { broken: BrokenRule, files: V },
    /// The files could not be read.
    Failed { files: V },
}

/// How many pages of a flash are free, how many belong to files and to logs, and how many to what is to be
/// collected.
#[derive(Clone, Copy, PartialEq, Eq, Debug)]
pub struct PageCounts {
    pub free: u16,
    pub files: u16,
    pub logs: u16,
    pub old: u16,
}

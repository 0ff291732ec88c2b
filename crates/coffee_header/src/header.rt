use afl_base::Name;

/// The header of an extent.
#[derive(Clone, Copy, PartialEq, Eq, Debug)]
pub struct Header {
    /// The first page of the file's log plus 1, or 0 for none.
    pub log_page: u16,
    /// The records of a log of this file: 30, or 0 in a log.
    pub log_records: u16,
    /// The bytes of such a record: 128, or 0 in a log.
    pub log_record_size: u16,
    /// The pages of the extent.
    pub max_pages: u16,
    /// 0 for a doubling file, 1 for a fixed one and for a log.
    pub kind: u8,
    /// 2 under construction, 3 an active file, 11 one with a log, 19 an active log, and 7, 15 and 23
    /// the same three when they are obsolete.
    pub flags: u8,
    /// The name of the file, which its log has too.
    pub name: Name,
}

ghost use Rattle.std.specs.Prelude.{◌≡◌, ℕ, ◌+◌, ◌*◌, ◌≤◌, ◌<◌, ◌==◌, ◌&&◌, ◌||◌, true, [], ◌∷◌, map, nat_le, if◌then◌else◌, List};
ghost use Rattle.std.specs.List.{list_any};
ghost use Rattle.std.specs.Option.{option_map};
ghost use Rattle.coffee_layout.specs.Files.{Placed, entry_with};
ghost use Rattle.coffee_layout.specs.Rules.{first_repeated, has_fields, has_file_fields, has_log_fields, is_doubling, same_name};
ghost use Rattle.coffee_layout.specs.Walks.{page_id};

use crate::file::FileAt;
use afl_base::{Kind, Name, PageId, fit};
use coffee_header::Header;

/// Rule 7, of the extent with this header.
pub(crate) fn has_fields(header: &Header) -> bool
    ensures { (page : ℕ) → result ≡ has_fields (record { page = page; header = header.now }) }
{
    if header.flags == 3 || header.flags == 11 {
        return has_file_fields(header);
    }
    if header.flags == 19 {
        return has_log_fields(header);
    }
    true
}

fn has_file_fields(header: &Header) -> bool
    ensures { result ≡ has_file_fields header.now }
{
    header.log_records == 30
        && header.log_record_size == 128
        && has_file_pages(header.kind, header.max_pages)
}

fn has_file_pages(kind: u8, pages: u16) -> bool
    ensures { result ≡ (if kind == 0 then is_doubling pages else nat_le 1 pages && nat_le pages 15) }
{
    if kind == 0 {
        is_doubling(pages)
    } else {
        1 <= pages && pages <= 15
    }
}

/// Whether a doubling file may have this many pages: 16, 32, 64 and so on, up to 32,768.
pub fn is_doubling(pages: u16) -> bool
    ensures { result ≡ is_doubling pages }
{
    matches!(
        pages,
        16 | 32 | 64 | 128 | 256 | 512 | 1024 | 2048 | 4096 | 8192 | 16384 | 32768
    )
}

fn has_log_fields(header: &Header) -> bool
    ensures { result ≡ has_log_fields header.now }
{
    header.log_records == 0
        && header.log_record_size == 0
        && header.log_page == 0
        && header.kind == 1
        && header.max_pages == 16
}

/// Rule 6: the first page of the first file whose name one before it has.
pub(crate) fn repeated_name(table: &[FileAt]) -> Option<PageId>
    ensures { (files : List Placed) → table.now ≡ map (λ f. entry_with f 0 0) files
        → result ≡ option_map page_id (first_repeated [] files) }
{
    for (i, file) in table.iter().enumerate() {
        if is_named(&table[..i], &file.name) {
            return Some(file.page);
        }
    }
    None
}

fn is_named(table: &[FileAt], name: &Name) -> bool
    ensures { result ≡ list_any (λ f. same_name f.name name.now) table.now }
{
    table.iter().any(|f| f.name == *name)
}

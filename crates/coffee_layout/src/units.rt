ghost use Rattle.std.specs.Prelude.{◌≡◌, ℕ, ◌+◌, ◌*◌, ◌/◌, ◌≤◌, ◌<◌, false, [], ◌∷◌, ◌++◌, List, None, Some, IsTrue, IfOk, MatchResult};
ghost use Rattle.afl_base.specs.Keeping.{OnlyReads};
ghost use Rattle.std.specs.List.{All};
ghost use Rattle.coffee_layout.specs.Files.{Placed, entry_with, files_in};
ghost use Rattle.coffee_layout.specs.Tiling.{broken_tiling, nowhere, units_of};
ghost use Rattle.coffee_layout.specs.Units.{pages_of};
ghost use Rattle.coffee_layout.specs.Walks.{IsInside, IsPlaced, IsSketched, files_of_unit};
ghost use Rattle.coffee_layout.specs.declared.file.FileAt.{FileAt};

use crate::file::{FileAt, Table};
use crate::sound::sound_unit;
use crate::unit::{BadImage, Unit};
use afl_base::{Failed, Flash, Kind, PageId};
use coffee_header::Header;

/// Judges the rules 1 to 4 at each unit from page 0 on. Where none is broken, `table` has the first
/// 32 active files, without their sizes, and the answer is the page of the 33rd.
pub(crate) fn judge_units<F: Flash>(
    flash: &mut F,
    table: &mut Table,
) -> Result<Result<Option<PageId>, BadImage>, Failed>
    requires empty { table.old.items ≡ [] }
    ensures judged { IsTrue F.tells → IfOk result (λ r. MatchResult r
        (λ extra. (broken_tiling nowhere (F.image flash.old) ≡ None)
        × IsSketched table.new.items extra (files_in (units_of (F.image flash.old))))
        (λ bad. broken_tiling nowhere (F.image flash.old) ≡ Some bad)) }
    ensures placed { All (λ e. IsPlaced (pages_of (F.image flash.old)) e) table.new.items }
    ensures reads { F.reads flash.new ≤ F.reads flash.old + pages_of (F.image flash.old) }
    ensures frame { OnlyReads F.image F.lent F.reads F.faults flash.old flash.new result }
{
    let pages = 16 * flash.sectors();
    let mut page: u16 = 0;
    let mut after_free = false;
    let mut extra = None;
    while page < pages {
        let unit = match sound_unit(flash, page, pages, after_free)? {
            Ok(unit) => unit,
            Err(rule) => return Ok(Err(BadImage { rule, place: page })),
        };
        extra = list_unit(table, extra, page, &unit);
        after_free = unit.is_free();
        page += unit.pages();
    }
    Ok(Ok(extra))
}

// Appends the entry of a unit that is an active file. Where the table is full, the answer is the
// page of the first such file.
fn list_unit(table: &mut Table, extra: Option<PageId>, page: u16, unit: &Unit) -> Option<PageId>
    ensures listed { (files : List Placed) → IsSketched table.old.items extra files
        → IsSketched table.new.items result (files ++ files_of_unit page unit.now) }
    ensures placed { (pages : ℕ) → IsInside pages page unit.now
        → All (λ e. IsPlaced pages e) table.old.items → All (λ e. IsPlaced pages e) table.new.items }
{
    match unit {
        Unit::Free => extra,
        Unit::Isolated => extra,
        Unit::Extent(header) => if matches!(header.flags, 3 | 11) {
            list_file(table, extra, page, header)
        } else {
            extra
        },
    }
}

fn list_file(table: &mut Table, extra: Option<PageId>, page: u16, header: &Header) -> Option<PageId>
    ensures listed { (files : List Placed) → IsSketched table.old.items extra files
        → IsSketched table.new.items result (files ++ record { page = page; header = header.now } ∷ []) }
    ensures placed { (pages : ℕ) → (1 ≤ header.now.max_pages)
        × (page + header.now.max_pages ≤ pages) → All (λ e. IsPlaced pages e) table.old.items
        → All (λ e. IsPlaced pages e) table.new.items }
{
    if table.is_full() {
        return extra.or(Some(PageId(page)));
    }
    table.push(sketch(page, header));
    extra
}

// The entry of a file that is not yet measured.
fn sketch(page: u16, header: &Header) -> FileAt
    ensures { result ≡ entry_with (record { page = page; header = header.now }) 0 0 }
{
    FileAt {
        name: header.name,
        kind: if header.kind == 0 {
            Kind::Doubling
        } else {
            Kind::Fixed(header.max_pages)
        },
        page: PageId(page),
        pages: header.max_pages,
        size: 0,
        log: if header.log_page == 0 {
            None
        } else {
            Some(PageId(header.log_page - 1))
        },
        used: 0,
    }
}

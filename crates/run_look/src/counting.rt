//! How the pages of a flash are used.

#![tactic(auto)]

ghost use Rattle.std.specs.Prelude.{◌≡◌, ℕ, Bool, ◌+◌, ◌*◌, ◌≤◌, List, IfOk, IsTrue, length};
ghost use Rattle.afl_base.specs.Keeping.{OnlyReads};
ghost use Rattle.coffee_layout.specs.Tiling.{IsTiled};
ghost use Rattle.coffee_layout.specs.Units.{pages_of, size_of};
ghost use Rattle.coffee_layout.specs.declared.unit.Unit.{Unit as AnyUnit};
ghost use Rattle.coffee_layout.specs.declared.unit.Unit.TheVariants.{Extent};
ghost use Rattle.run_look.specs.Pages.{CountsMore, all_pages, page_counts};

use crate::pages::PageCounts;
use afl_base::{Failed, Flash};
use coffee_header::Header;
use coffee_layout::{Unit, unit_in};

/// Counts the pages of a flash by their use. Each unit is read once. On a flash that answers otherwise at
/// each read all pages from one on at which no unit begins count as to be collected.
pub fn count_pages<F: Flash>(flash: &mut F) -> Result<PageCounts, Failed>
    ensures counts { IsTrue F.tells → IfOk result (λ counts. (building : ℕ → Bool) (us : List AnyUnit)
        → IsTiled building (F.image flash.old) us → counts ≡ page_counts us) }
    ensures all { IfOk result (λ counts. 256 * all_pages counts ≡ length (F.image flash.old)) }
    ensures reads { F.reads flash.new ≤ F.reads flash.old + pages_of (F.image flash.old) }
    ensures frame { OnlyReads F.image F.lent F.reads F.faults flash.old flash.new result }
{
    let all = 16 * flash.sectors();
    let mut counts = PageCounts {
        free: 0,
        files: 0,
        logs: 0,
        old: 0,
    };
    let mut page: u16 = 0;
    while page < all {
        let unit = match unit_in(flash, page, all)? {
            Some(unit) => unit,
            None => return Ok(with_rest(&counts, all - page)),
        };
        counts = with_unit(&counts, &unit);
        page += unit.pages();
    }
    Ok(counts)
}

// These and this many pages that are to be collected.
fn with_rest(counts: &PageCounts, pages: u16) -> PageCounts
    requires few { all_pages counts.now + pages ≤ 65535 }
    ensures all { all_pages result ≡ all_pages counts.now + pages }
    ensures rest { result ≡ record counts.now { old = counts.now.old + pages } }
{
    let mut more = *counts;
    more.old += pages;
    more
}

// These and the pages of one unit more.
fn with_unit(counts: &PageCounts, unit: &Unit) -> PageCounts
    requires few { all_pages counts.now + size_of unit.now ≤ 65535 }
    ensures { CountsMore counts.now result unit.now }
{
    match unit {
        Unit::Free => {
            let mut more = *counts;
            more.free += 1;
            more
        }
        Unit::Isolated => with_rest(counts, 1),
        Unit::Extent(header) => with_extent(counts, header),
    }
}

fn with_extent(counts: &PageCounts, header: &Header) -> PageCounts
    requires few { all_pages counts.now + header.now.max_pages ≤ 65535 }
    ensures { CountsMore counts.now result (Extent header.now) }
{
    if header.flags == 19 {
        let mut more = *counts;
        more.logs += header.max_pages;
        return more;
    }
    if matches!(header.flags, 2 | 3 | 11) {
        let mut more = *counts;
        more.files += header.max_pages;
        return more;
    }
    with_rest(counts, header.max_pages)
}

//! The sectors that are enough beside files of given sizes. At most 16 files, each with an extent of at most
//! 32,768 pages, touch 65,552 sectors and leave 35 gaps of less than 4,096, so that no number here passes 2^18.

#![tactic(auto)]

ghost use Rattle.std.specs.Prelude.{◌≡◌, ◌*◌, ◌≤◌, length, map};
ghost use Rattle.afl_base.specs.Fit.{fit};
ghost use Rattle.db_model.specs.Cost.{sum};
ghost use Rattle.space_model.specs.Enough.{enough_for, largest, most_of, touched};

use afl_base::fit;

// The bytes that the largest extent holds.
const LARGEST: u32 = 8_388_576;

// The pages of the extent of a file of this many bytes; a size beyond the largest extent counts as it.
#[tactic(auto, using(crate::proofs::Fitting::fit_capped, crate::proofs::Fitting::fit_few))]
fn pages(size: u32) -> u32
    ensures value { result ≡ fit size }
    ensures few { result ≤ 32768 }
{
    u32::from(fit(size.min(LARGEST)))
}

// The sectors that the extents of files touch, wherever these begin.
fn touched(sizes: &[u32]) -> u32
    requires { length sizes.now ≤ 16 }
    ensures value { result ≡ sum (map touched sizes.now) }
    ensures few { result ≤ 4097 * length sizes.now }
{
    let mut sectors = 0;
    for size in sizes {
        sectors += pages(*size) / 8 + 1;
    }
    sectors
}

// The pages of the largest of files.
fn largest(sizes: &[u32]) -> u32
    ensures value { result ≡ largest sizes.now }
    ensures few { result ≤ 32768 }
{
    let mut most = 0;
    for size in sizes {
        most = pages(*size).max(most);
    }
    most
}

// The pages of the largest extent that a growing file asks for.
pub fn most_of(sizes: &[u32]) -> u32
    ensures value { result ≡ most_of sizes.now }
    ensures least { 16 ≤ result }
    ensures few { result ≤ 65536 }
{
    (2 * largest(sizes)).max(16)
}

// The sectors with which an extent of this many pages is always available beside a catalog and the files.
pub fn enough_for(sizes: &[u32], pages: u32) -> u32
    requires files { length sizes.now ≤ 16 }
    requires some { 1 ≤ pages }
    requires few { pages ≤ 65536 }
    ensures { result ≡ enough_for sizes.now pages }
{
    let files = 1 + sizes.len() as u32;
    let gaps = 2 * files + 1;
    touched(sizes) + 2 + 2 * files + gaps * (pages.div_ceil(16) - 1) + 1
}

ghost use Rattle.std.specs.Prelude.{◌≡◌, ◌≤◌};
ghost use Rattle.afl_base.specs.Fit.{fit, IsFit};
ghost use Rattle.afl_base.specs.Regions.{regions};

/// The least number of pages of the form `16 * 2^j` that holds `size` bytes after a header of 32
/// bytes: 16 to 32,768.
pub fn fit(size: u32) -> u16
    requires { size ≤ 8388576 }
    ensures value { result ≡ fit size }
    ensures least { IsFit size result }
{
    let mut pages: u16 = 16;
    'doublings: for turn in 0..11u16 {
        if size + 32 <= 256 * u32::from(pages) {
            return pages;
        }
        pages *= 2;
    }
    pages
}

/// How many regions of 128 bytes the `len` bytes from byte `at` on touch.
pub fn regions(at: u32, len: usize) -> u16
    requires { len ≤ 4194304 }
    ensures { result ≡ regions at len }
{
    if len == 0 {
        return 0;
    }
    let first = at as usize / 128;
    let past = (at as usize + len + 127) / 128;
    (past - first) as u16
}

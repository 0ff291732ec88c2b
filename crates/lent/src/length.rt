ghost use Rattle.std.specs.Prelude.{◌≡◌, ◌↔◌, ◌*◌, ◌≤◌, IfSome, IsSome};
ghost use Rattle.afl_sim.specs.Lengths.{IsImageLength};

use afl_base::SECTOR_SIZE;

/// How many sectors an image of this many bytes has, where an image may have this many.
pub fn sectors_of(bytes: usize) -> Option<u16>
    ensures variant { IsSome result ↔ IsImageLength bytes }
    ensures whole { IfSome result (λ n. bytes ≡ 4096 * n) }
    ensures least { IfSome result (λ n. 4 ≤ n) }
    ensures most { IfSome result (λ n. n ≤ 4095) }
{
    let sectors = bytes / SECTOR_SIZE;
    if bytes % SECTOR_SIZE != 0 || sectors < 4 || sectors > 4095 {
        return None;
    }
    Some(sectors as u16)
}

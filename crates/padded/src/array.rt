ghost use Rattle.std.specs.Prelude.{◌≡◌, ◌≤◌, length};
ghost use Rattle.padded.specs.Padded.{padded};

/// `bytes`, at most `N`, followed by zeros up to the width `N`.
pub fn padded_to<const N: usize>(bytes: &[u8]) -> [u8; N]
    requires { length bytes.now ≤ N }
    ensures { result ≡ padded N bytes.now }
{
    let mut filled = [0; N];
    filled[..bytes.len()].copy_from_slice(bytes);
    filled
}

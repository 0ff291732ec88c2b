ghost use Rattle.std.specs.Prelude.{◌≡◌};
ghost use Rattle.padded.specs.Zeros.{is_zeros};

/// Whether all bytes are zero.
pub fn is_zeros(bytes: &[u8]) -> bool
    ensures { result ≡ is_zeros bytes.now }
{
    bytes.iter().all(|byte| *byte == 0)
}

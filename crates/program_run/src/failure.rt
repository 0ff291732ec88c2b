use thiserror::Error;

/// Why a program ends before it carries out anything. The texts are never printed.
#[derive(Debug, Drop, Error)]
pub enum Failure {
    #[error("the image or the script could not be opened")]
    Open,
    #[error("memory is wanting")]
    Memory,
    #[error("the image is not 4 to 4,095 sectors long")]
    Length,
}

impl Failure {
    ghost use Rattle.std.specs.Prelude.{◌≡◌, ◌⊎◌};

    pub fn status(&self) -> u8
        ensures { (result ≡ 7) ⊎ (result ≡ 9) ⊎ (result ≡ 10) }
    {
        match self {
            Failure::Open => 7,
            Failure::Memory => 9,
            Failure::Length => 10,
        }
    }
}

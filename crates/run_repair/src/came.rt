use afl_base::Failed;
use coffee_layout::BadImage;

/// What a repair came to.
#[derive(Clone, Copy, PartialEq, Eq, Debug)]
pub enum Came {
    /// The image is sound.
    Sound,
    /// It was repaired.
    Repaired,
    /// No cut leaves such an image, of which this is the first broken rule.
    Strange(BadImage),
}

/// Why a repair came to no end.
#[derive(Clone, Copy, PartialEq, Eq, Debug)]
pub enum Hindrance {
    /// There is no room for an extent of this many pages, which the repair needs.
    Spaceless { need: u16 },
    /// The image has this first broken rule still, on a flash that answers otherwise at each read.
    Unsettled(BadImage),
    /// The flash failed.
    Failed,
}

impl From<Failed> for Hindrance {
    ghost use Rattle.std.specs.Prelude.{◌≡◌};
    ghost use Rattle.run_repair.specs.declared.came.Hindrance.TheVariants.{Failed as fault_of_flash};

    ghost from_gives = { λ failed hindrance. hindrance ≡ fault_of_flash };

    fn from(_failed: Failed) -> Hindrance {
        Hindrance::Failed
    }
}

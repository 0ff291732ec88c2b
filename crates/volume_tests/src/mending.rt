//! What a cut left of a flash, repaired.

use afl_base::Flash;
use coffee_find::{Judgement, judge};
use coffee_mend::{MendError, mend};

/// What mending comes to.
#[derive(Clone, Copy, PartialEq, Eq, Debug)]
pub enum Came {
    /// The image is sound.
    Mended,
    /// There is no space for a file whose record is torn.
    Spaceless,
    Failed,
    /// No cut leaves such an image.
    Strange,
}

/// Mends the image of a flash.
pub fn mended<F: Flash>(flash: &mut F) -> Came {
    match judge(flash) {
        Ok(Judgement::Sound) => Came::Mended,
        Ok(Judgement::Cut(trouble)) => match mend(flash, &trouble) {
            Ok(()) => Came::Mended,
            Err(MendError::Space { need: _ }) => Came::Spaceless,
            Err(MendError::Failed) => Came::Failed,
            Err(MendError::Unsettled) => Came::Strange,
        },
        Ok(Judgement::Strange(_)) => Came::Strange,
        Err(_) => Came::Failed,
    }
}

//! Files in arrays ask for as little as is counted for them.

#![tactic(auto)]

ghost use Rattle.space_model.specs.Wants.{AsksLittle};

use afl_base::Files;
use afl_sim::PlainFiles;

/// A growing file in arrays asks for at most twice the pages that its size needs, while at most 4,096 bytes
/// more are prepared for, and one of 6 pages for at most 16.
pub fn plain_files_ask_for_little<const CAP: usize>(files: &PlainFiles<CAP>)
    ensures { AsksLittle (⟦<PlainFiles<CAP> as Files>⟧.state files.now).files
        (⟦<PlainFiles<CAP> as Files>⟧.asks files.now) }
{}

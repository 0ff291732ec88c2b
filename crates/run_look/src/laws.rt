//! A law on what is counted. The function does nothing: its contract is the law.

#![tactic(auto)]

ghost use Rattle.std.specs.Prelude.{◌≡◌, ℕ, ◌*◌, List, None, length};
ghost use Rattle.coffee_layout.specs.Rules.{broken_image};
ghost use Rattle.coffee_layout.specs.Tiling.{units_of};
ghost use Rattle.coffee_layout.specs.Units.{pages_of};
ghost use Rattle.run_look.specs.Pages.{all_pages, page_counts};

use coffee_layout::one_tiling;

/// On a sound image each page is counted once: as free, of a file, of a log, or to be collected.
pub fn each_page_is_counted_once()
    ensures { (image : List ℕ) → 256 * pages_of image ≡ length image → broken_image image ≡ None
        → all_pages (page_counts (units_of image)) ≡ pages_of image }
{
    one_tiling();
}

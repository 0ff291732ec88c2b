ghost use Rattle.std.specs.Prelude.{◌≡◌, ℕ, List};
ghost use Rattle.coffee_cuts.specs.Cuts.{MendsTo, settled};
ghost use Rattle.coffee_layout.specs.Files.{files_of};
ghost use Rattle.coffee_find.specs.Found.{IsCutBy, meant};
ghost use Rattle.coffee_find.specs.declared.trouble.Trouble.{Trouble};

/// An image of which a cut left this mends to the files that it has once that is settled.
pub fn cut_images_mend()
    ensures { (image : List ℕ) (trouble : Trouble) → IsCutBy image trouble
        → MendsTo image (files_of (settled image (meant trouble.under_way))) }
{}

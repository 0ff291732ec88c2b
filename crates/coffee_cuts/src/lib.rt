//! The images that a cut can have left, and the files that each stands for once it is mended, as definitions. The functions here
//! do nothing, and their contracts are laws of theirs.
#![tactic(auto)]

mod torn;

ghost use Rattle.std.specs.Prelude.{◌≡◌, ◌*◌, ◌≤◌, ℕ, List, None, Some, length};
ghost use Rattle.coffee_cuts.specs.Cuts.{IsSuperseding, MendsTo};
ghost use Rattle.coffee_cuts.specs.Mending.{MendsToTable};
ghost use Rattle.coffee_cuts.specs.Shown.{ShowsUnderWay};
ghost use Rattle.coffee_cuts.specs.Superseded.{SupersedesFurther, IsSuperseded};
ghost use Rattle.coffee_layout.specs.Files.{NamedFile, files_of};
ghost use Rattle.coffee_layout.specs.Rules.{broken_image};
ghost use Rattle.coffee_layout.specs.declared.file.FileAt.{FileAt};
ghost use Rattle.coffee_layout.specs.declared.unit.BadImage.{BadImage};
ghost use Rattle.coffee_merge.specs.Holding.{Entries, IsIn};
ghost use Rattle.coffee_merge.specs.TableFiles.{file_of};

pub use torn::{
    broken_off_files_mend, held_images_mend, torn_collections_mend, torn_commits_mend,
    torn_contents_mend, torn_headers_mend, torn_namings_mend, torn_removals_mend,
    torn_replacings_mend, written_drafts_mend,
};

/// An image that keeps the rules 1 to 13 mends to its own files, and to no others: what was under way, as far as such an image
/// shows anything of the kind, changes none of them.
pub fn sound_images_mend_to_their_files()
    ensures mends { (image : List ℕ) → broken_image image ≡ None → MendsTo image (files_of image) }
    ensures only { (image : List ℕ) (files : List NamedFile) (sectors : ℕ) → length image ≡ 4096 * sectors
        → broken_image image ≡ None → MendsTo image files → files ≡ files_of image }
{}

/// An image of whole sectors mends to one list of files at most, in page order, whatever is found in it of what was
/// under way. So each file of a table that it mends to is one of any other such table.
pub fn cut_images_mend_to_one_list()
    ensures files { (image : List ℕ) (files others : List NamedFile) (sectors : ℕ) → length image ≡ 4096 * sectors
        → MendsTo image files → MendsTo image others → files ≡ others }
    ensures tables { (image first second : List ℕ) (table other : Entries) (sectors : ℕ) → length image ≡ 4096 * sectors
        → MendsToTable image first table → MendsToTable image second other
        → (i : ℕ) (e : FileAt) → IsIn table i e → (k : ℕ) × (f : FileAt) × IsIn other k f × (file_of first e ≡ file_of second f) }
{}

/// The first rule that an image breaks which a cut left, and its place, show what was under way.
pub fn first_rules_show_what_was_under_way()
    ensures { (image : List ℕ) (files : List NamedFile) (bad : BadImage) (sectors : ℕ) → length image ≡ 4096 * sectors
        → broken_image image ≡ Some bad → (m : MendsTo image files) → ShowsUnderWay image bad m.under_way }
{}

/// A torn record is superseded by the one behind it: once that holds the first region of the log's file, and both have
/// its number, the image is sound, and has the files that it mended to.
pub fn torn_records_are_superseded()
    ensures sound { (image new : List ℕ) (sectors : ℕ) → length image ≡ 4096 * sectors → (t : IsSuperseding image)
        → 1 ≤ t.file.size → IsSuperseded image new t → broken_image new ≡ None }
    ensures files { (image new : List ℕ) (sectors : ℕ) → length image ≡ 4096 * sectors → (t : IsSuperseding image)
        → 1 ≤ t.file.size → IsSuperseded image new t → files_of new ≡ files_of image }
{}

/// Where the repair that supersedes a torn record is cut on its way, the image is still one in which it is being superseded,
/// and mends to the same files.
pub fn supersedings_go_on()
    ensures still { (image new : List ℕ) (sectors : ℕ) → length image ≡ 4096 * sectors → (t : IsSuperseding image)
        → SupersedesFurther image new t → (s : IsSuperseding new) × (s.log ≡ t.log) × (s.file ≡ t.file) }
    ensures files { (image new : List ℕ) (sectors : ℕ) → length image ≡ 4096 * sectors → (t : IsSuperseding image)
        → SupersedesFurther image new t → files_of new ≡ files_of image }
{}

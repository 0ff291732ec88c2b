//! What a repair would do, found by reading alone.

#![tactic(auto)]

ghost use Rattle.std.specs.Prelude.{◌≡◌, ◌≤◌, length};
ghost use Rattle.afl_base.specs.Files.{IsLive, size_at};
ghost use Rattle.afl_base.specs.Keeping.{OnlyReads};

use crate::finding::find_half;
use crate::indexes::has_whole_tree;
use crate::reading::read_catalog;
use afl_base::{Failed, FileId, Files, IndexId, RelationId};
use catalog::{Catalog, IndexEntry, catalog_file, rows_file, tree_file};
use db_model::{Ident, IndexKind};
use stored::Half;
use stored_mend::{Mended, Report, SIZE_OF_VERSION_1, may_fill, whole_catalog};

/// Adds to a report what `mend_database` would repair where it has room, in its order. The files are ones of
/// which `may_be_cut` answers that a cut can have left them. They stay.
pub fn foretell<V: Files>(files: &mut V, report: &mut Report) -> Result<(), Failed>
    ensures frame { OnlyReads V.state V.lent V.reads V.faults files.old files.new result }
{
    let Some(cat) = whole_catalog(files) else {
        foretell_begun(files, report);
        return Ok(());
    };
    let Some(catalog) = read_catalog(files, cat)? else {
        return Ok(());
    };
    if lacks_mark(files, cat, &catalog) {
        report.add(Mended::Mark);
    }
    let half = find_half(files, cat, &catalog)?;
    foretell_half(files, &catalog, &half, report)
}

// The same where the first catalog was being begun.
fn foretell_begun<V: Files>(files: &V, report: &mut Report) {
    if let Some(cat) = files.find(catalog_file()) {
        if files.size(cat) != 0 {
            report.add(Mended::Catalog);
        }
    }
    if let Some(id) = RelationId::new(0) {
        if files.find(rows_file(id)).is_some() {
            report.add(Mended::Relation(id));
        }
    }
}

// Whether bytes of the mark of version 2 are missing.
fn lacks_mark<V: Files>(files: &V, cat: FileId, catalog: &Catalog) -> bool
    requires live { IsLive (V.state files.now).files cat }
    requires size { 1472 ≤ size_at (V.state files.now).files cat }
{
    catalog.version == 2 && files.size(cat) - SIZE_OF_VERSION_1 < 8
}

// The same of what is half done.
fn foretell_half<V: Files>(
    files: &mut V,
    catalog: &Catalog,
    half: &Half,
    report: &mut Report,
) -> Result<(), Failed>
    requires relations { length catalog.now.relations ≡ 8 }
    ensures frame { OnlyReads V.state V.lent V.reads V.faults files.old files.new result }
{
    match half {
        Half::Nothing => {}
        Half::Emptying(slot) | Half::LoneRows(slot) => report_relation(*slot, report),
        Half::Growing(slot) => {
            if let Some(name) = relation_name(catalog, *slot) {
                report.add(Mended::Attribute(name));
            }
        }
        Half::AddingRow(slot) => return foretell_row(files, catalog, *slot, report),
        Half::Treeless(slot) => report_index(catalog, *slot, report),
        Half::LoneTree(slot) => report_tree(*slot, report),
        Half::AddingKey(relation) => return foretell_trees(files, catalog, *relation, report),
    }
    Ok(())
}

fn report_relation(slot: u16, report: &mut Report) {
    if let Some(id) = RelationId::new(slot) {
        report.add(Mended::Relation(id));
    }
}

fn report_tree(slot: u16, report: &mut Report) {
    if let Some(id) = IndexId::new(slot) {
        report.add(Mended::Stray(id));
    }
}

// The name of the relation in a slot.
fn relation_name(catalog: &Catalog, slot: u16) -> Option<Ident> {
    match catalog.relations.get(slot as usize) {
        Some(Some(schema)) => Some(schema.name),
        _ => None,
    }
}

fn report_index(catalog: &Catalog, slot: u16, report: &mut Report) {
    if let Some(Some(entry)) = catalog.indexes.get(slot as usize) {
        if let Some((relation, attribute)) = index_names(catalog, entry) {
            report.add(Mended::Index {
                relation,
                attribute,
            });
        }
    }
}

// The relation and the attribute that an index is on.
fn index_names(catalog: &Catalog, entry: &IndexEntry) -> Option<(Ident, Ident)> {
    match catalog.relations.get(entry.relation.number() as usize) {
        Some(Some(schema)) => match schema.attributes.as_slice().get(entry.attribute as usize) {
            Some(attribute) => Some((schema.name, attribute.name)),
            None => None,
        },
        _ => None,
    }
}

// A row that is there in part: where it is filled, its key goes into each tree of the relation.
fn foretell_row<V: Files>(
    files: &mut V,
    catalog: &Catalog,
    slot: u16,
    report: &mut Report,
) -> Result<(), Failed>
    requires relations { length catalog.now.relations ≡ 8 }
    ensures frame { OnlyReads V.state V.lent V.reads V.faults files.old files.new result }
{
    let (Some(id), Some(Some(schema))) = (
        RelationId::new(slot),
        catalog.relations.get(slot as usize),
    ) else {
        return Ok(());
    };
    report.add(Mended::Row(schema.name));
    let Some(file) = files.find(rows_file(id)) else {
        return Ok(());
    };
    if may_fill(files, file, &schema.attributes, catalog, id)? {
        foretell_keys(files, catalog, slot, report);
    }
    Ok(())
}

// All trees of a relation.
fn foretell_keys<V: Files>(files: &V, catalog: &Catalog, relation: u16, report: &mut Report) {
    for slot in 0..8u16 {
        foretell_key(files, catalog, relation, slot, report);
    }
}

fn foretell_key<V: Files>(
    files: &V,
    catalog: &Catalog,
    relation: u16,
    slot: u16,
    report: &mut Report,
) {
    let (Some(id), Some(Some(entry))) = (IndexId::new(slot), catalog.indexes.get(slot as usize))
    else {
        return;
    };
    if entry.kind != IndexKind::MaxHeap
        || entry.relation.number() != relation
        || files.find(tree_file(id)).is_none()
    {
        return;
    }
    if let Some((relation, attribute)) = index_names(catalog, entry) {
        report.add(Mended::Tree {
            relation,
            attribute,
        });
    }
}

// The trees of a relation that are not those of its keys.
fn foretell_trees<V: Files>(
    files: &mut V,
    catalog: &Catalog,
    relation: u16,
    report: &mut Report,
) -> Result<(), Failed>
    requires relations { length catalog.now.relations ≡ 8 }
    ensures frame { OnlyReads V.state V.lent V.reads V.faults files.old files.new result }
{
    for slot in 0..8u16 {
        foretell_tree(files, catalog, relation, slot, report)?;
    }
    Ok(())
}

fn foretell_tree<V: Files>(
    files: &mut V,
    catalog: &Catalog,
    relation: u16,
    slot: u16,
    report: &mut Report,
) -> Result<(), Failed>
    requires relations { length catalog.now.relations ≡ 8 }
    ensures frame { OnlyReads V.state V.lent V.reads V.faults files.old files.new result }
{
    let (Some(id), Some(Some(entry))) = (IndexId::new(slot), catalog.indexes.get(slot as usize))
    else {
        return Ok(());
    };
    if entry.kind != IndexKind::MaxHeap || entry.relation.number() != relation {
        return Ok(());
    }
    let Some(tree) = files.find(tree_file(id)) else {
        return Ok(());
    };
    if has_whole_tree(files, catalog, entry, tree)? {
        return Ok(());
    }
    if let Some((relation, attribute)) = index_names(catalog, entry) {
        report.add(Mended::Tree {
            relation,
            attribute,
        });
    }
    Ok(())
}

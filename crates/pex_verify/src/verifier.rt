// Sets of files, in the order in which their rules are judged.
ghost use Rattle.std.specs.Prelude.{◌≡◌, ◌+◌, ◌<◌, ℕ, List, [], ◌∷◌, ◌++◌, map, Some, length, vec_len, All, IfOk, OnOk, false, None};
ghost use Rattle.pex_meaning.specs.Prelude as meant;
ghost use Rattle.pex_values.specs.Plain.{plain, plain_named};
ghost use Rattle.pex_verify.specs.Files.{IsFile};
ghost use Rattle.pex_verify.specs.Sources.{object_count, script_count};
ghost use Rattle.pex_verify.specs.Sets.{AreSoundScripts};
ghost use Rattle.pex_verify.specs.Heads.{Placed, placed, placed_in, placed_objects, members_of, AreNumbered, AreHeads};
ghost use Rattle.papy_base.specs.Lineage.{AreRooted, AreAmong};
ghost use Rattle.pex_set.specs.Names.{empty_name, number_in};
ghost use Rattle.pex_set.specs.Objects.{parents_in};
ghost use Rattle.pex_set.specs.Plain.{HasNoProperties};
ghost use Rattle.pex_verify.specs.Meanings.{result_meaning};
ghost use Rattle.pex_verify.specs.Tables.{IsTable};
ghost use Rattle.pex_verify.specs.Types.{IsValueTypeAmong};
ghost use Rattle.pex_verify.specs.TypesMeant.{AreTypes};
ghost use Rattle.pex_verify.specs.Loading.{judged_by, AreObjects};
ghost use Rattle.pex_verify.specs.Whole.{IsSetByNames};
ghost use Rattle.pex_verify.specs.Kept.{IsJudgedBy};
ghost use Rattle.pex_verify.specs.NameTables.{names_in};
ghost use Rattle.pex_verify.specs.Naming.{NameScripts};

use crate::fault::{Site, Valid, VerifyRule};
use crate::judged::JudgedScript;
use crate::members::MemberTable;
use crate::object::{Loader, ObjectLists, load_object};
use crate::scripts::SetHeads;
use crate::sources::{
    DefaultMembers, FileLines, FileStrings, SetFile, all_sources, objects_of, source_of,
    strings_of_files,
};
use core_tree::OutlineScript;
use papy_base::{LIBRARY_COUNT, on_circles};
use pex_set::{EMPTY_NAME, NameNumbers, Objects, Prelude, text_at};
use pex_values::{Pex, PexObject};
use std::alloc::Global;

// Scripts that were loaded, with their outlines.
#[derive(Drop)]
pub(crate) struct Parts {
    pub(crate) outlines: Vec<OutlineScript>,
    pub(crate) scripts: Vec<JudgedScript>,
}

// The parts of a set, with its objects by name and with what each script has from itself upward.
#[derive(Drop)]
pub(crate) struct Tables {
    pub(crate) parts: Parts,
    pub(crate) objects: Objects,
    pub(crate) members: MemberTable,
}

/// All scripts of these files, behind those of the prelude.
pub(crate) fn load_all(alloc: Global, table: &mut NameNumbers, files: &[Pex]) -> Valid<Tables>
    requires few { length files.now < 65536 }
    requires valid { All IsFile files.now }
    ensures count { IfOk result (λ tables. vec_len tables.parts.scripts ≡ script_count files.now) }
    ensures sound { IfOk result (λ tables. AreSoundScripts (vec_len tables.parts.scripts) tables.parts.outlines.items tables.parts.scripts.items) }
    ensures judged { IfOk result (λ tables. IsJudgedBy files.now tables.parts.scripts.items tables.parts.outlines.items table.new tables.members) }
    ensures names { table.old ≡ [] ∷ [] → OnOk result (table.new ≡ names_in files.now) }
    ensures named { IfOk result (λ tables. NameScripts table.new tables.objects tables.parts.outlines.items) }
{
    let prelude = Prelude::new(alloc)?;
    load_behind(alloc, table, &prelude, files)
}

// The same behind this prelude.
fn load_behind(
    alloc: Global,
    table: &mut NameNumbers,
    prelude: &Prelude,
    files: &[Pex],
) -> Valid<Tables>
    requires few { length files.now < 65536 }
    requires valid { All IsFile files.now }
    requires file { plain prelude.now.file ≡ meant.prelude }
    requires members { map plain_named prelude.now.members.items ≡ meant.members }
    requires prelude { vec_len prelude.now.file.objects ≡ 6 }
    requires plain { All HasNoProperties prelude.now.file.objects.items }
    ensures count { IfOk result (λ tables. vec_len tables.parts.scripts ≡ script_count files.now) }
    ensures sound { IfOk result (λ tables. AreSoundScripts (vec_len tables.parts.scripts) tables.parts.outlines.items tables.parts.scripts.items) }
    ensures judged { IfOk result (λ tables. IsJudgedBy files.now tables.parts.scripts.items tables.parts.outlines.items table.new tables.members) }
    ensures names { table.old ≡ [] ∷ [] → OnOk result (table.new ≡ names_in files.now) }
    ensures named { IfOk result (λ tables. NameScripts table.new tables.objects tables.parts.outlines.items) }
{
    let prelude_strings = FileStrings::of(alloc, table, prelude.file.strings.as_slice())?;
    let strings = strings_of_files(alloc, table, files)?;
    // No fault lies in the prelude, so its number is never told.
    let first = source_of(0, &prelude.file, &prelude_strings);
    let all = all_sources(alloc, first, files, strings.as_slice())?;
    let members = DefaultMembers {
        list: prelude.members.as_slice(),
        source: &first,
    };
    load_set(alloc, table, files, &members, all.as_slice())
}

// The scripts of these files, the first of which is the prelude.
fn load_set(
    alloc: Global,
    table: &NameNumbers,
    files: &[Pex],
    members: &DefaultMembers<'_>,
    sources: &[SetFile<'_>],
) -> Valid<Tables>
    ensures count { IfOk result (λ tables. vec_len tables.parts.scripts ≡ object_count sources.now) }
    ensures sound { IfOk result (λ tables. AreSoundScripts (vec_len tables.parts.scripts) tables.parts.outlines.items tables.parts.scripts.items) }
    ensures loaded { IfOk result (λ tables. IsSetByNames table.now members.now sources.now tables.parts.scripts.items tables.parts.outlines.items tables.members) }
    ensures numbered { IfOk result (λ tables. AreNumbered (placed_objects sources.now) tables.objects) }
    ensures empty { OnOk result (number_in table.now [] ≡ Some empty_name) }
{
    let set = judged_scripts(alloc, table, files, members, sources)?;
    let loader = Loader {
        alloc,
        set: &set,
        members,
    };
    let mut lists = ObjectLists::new(alloc, table.count())?;
    let parts = load_files(&loader, &mut lists, sources)?;
    Ok(Tables {
        parts,
        objects: set.objects,
        members: set.table,
    })
}

// What the scripts offer, once their names, parents and numbers were judged.
fn judged_scripts(
    alloc: Global,
    table: &NameNumbers,
    files: &[Pex],
    members: &DefaultMembers<'_>,
    sources: &[SetFile<'_>],
) -> Valid<SetHeads>
    ensures count { IfOk result (λ scripts. vec_len scripts.heads ≡ object_count sources.now) }
    ensures numbered { IfOk result (λ scripts. AreNumbered (placed_objects sources.now) scripts.objects) }
    ensures heads { IfOk result (λ scripts. AreHeads (members_of members.now) (parents_in scripts.objects) (placed_objects sources.now) scripts.heads.items) }
    ensures rooted { IfOk result (λ scripts. AreRooted (parents_in scripts.objects)) }
    ensures meanings { IfOk result (λ scripts. (name : ℕ) → IsValueTypeAmong (vec_len scripts.heads) (result_meaning scripts.types name)) }
    ensures table { IfOk result (λ scripts. IsTable (parents_in scripts.objects) (placed_objects sources.now) scripts.heads.items scripts.table) }
    ensures types { IfOk result (λ scripts. AreTypes table.now scripts.objects scripts.types) }
{
    let objects = objects_of(alloc, sources)?;
    let parents = objects.parents(alloc)?;
    judge_objects(alloc, files, &objects, parents.as_slice())?;
    Ok(SetHeads::of(alloc, table, members, sources, objects, parents.as_slice())?)
}

// How many scripts a set may have: the prelude's 6, and 4,096 of the files.
const SCRIPT_LIMIT: usize = 4102;

// Judges the objects in order of file and object. Those of the prelude break no rule.
fn judge_objects(
    alloc: Global,
    files: &[Pex],
    objects: &Objects,
    parents: &[Option<usize>],
) -> Valid<()>
    ensures { AreAmong parents.now → OnOk result (AreRooted parents.now) }
{
    let is_above_itself = on_circles(alloc, parents)?;
    for (number, circle) in is_above_itself.iter().enumerate() {
        if let Some(rule) = object_rule(objects, number, *circle) {
            return Err(object_site(files, objects, number).fault(alloc, rule));
        }
    }
    Ok(())
}

// The lowest rule that the object breaks.
fn object_rule(objects: &Objects, number: usize, is_above_itself: bool) -> Option<VerifyRule>
    ensures { result ≡ None → is_above_itself ≡ false }
{
    if lacks_parent(objects, number) {
        Some(VerifyRule::UnknownParent)
    } else if is_above_itself {
        Some(VerifyRule::ParentCycle)
    } else if has_earlier_name(objects, number) {
        Some(VerifyRule::DuplicateName)
    } else if number >= SCRIPT_LIMIT {
        Some(VerifyRule::TooMany)
    } else {
        None
    }
}

// Whether the object names a parent that it can't have: none of the set, or a library.
fn lacks_parent(objects: &Objects, number: usize) -> bool {
    let Some(head) = objects.head(number) else {
        return false;
    };
    let parent = objects.first_named(head.parent);
    head.parent != EMPTY_NAME && parent.is_none_or(|parent| parent < LIBRARY_COUNT)
}

// Whether an earlier object has the same name.
fn has_earlier_name(objects: &Objects, number: usize) -> bool {
    let head = objects.head(number);
    head.is_some_and(|head| objects.first_named(head.name) != Some(number))
}

// The prelude is the first of the files that heads number.
fn object_site<'a>(files: &'a [Pex], objects: &Objects, number: usize) -> Site<'a> {
    let Some(head) = objects.head(number) else {
        return Site {
            file: 0,
            object: &[],
        };
    };
    let file = head.file.saturating_sub(1);
    let object: &[u8] = match files.get(file) {
        Some(pex) => text_at(pex.strings.as_slice(), head.title),
        None => &[],
    };
    Site {
        file: file.min(usize::from(u16::MAX)) as u16,
        object,
    }
}

// Loads the objects of all files.
fn load_files(loader: &Loader<'_>, lists: &mut ObjectLists, sources: &[SetFile<'_>]) -> Valid<Parts>
    ensures count { IfOk result (λ parts. vec_len parts.scripts ≡ object_count sources.now) }
    ensures sound { IfOk result (λ parts. AreSoundScripts (vec_len loader.now.set.now.heads) parts.outlines.items parts.scripts.items) }
    ensures objects { IfOk result (λ parts. AreObjects (judged_by loader.now) (placed_objects sources.now) parts.scripts.items parts.outlines.items) }
{
    let mut parts = Parts {
        outlines: Vec::new(loader.alloc),
        scripts: Vec::new(loader.alloc),
    };
    for source in sources {
        load_file(loader, lists, source, &mut parts)?;
    }
    Ok(parts)
}

// Loads the objects of the next file.
fn load_file(
    loader: &Loader<'_>,
    lists: &mut ObjectLists,
    source: &SetFile<'_>,
    parts: &mut Parts,
) -> Valid<()>
    ensures count { OnOk result (vec_len parts.new.scripts ≡ vec_len parts.old.scripts + vec_len source.now.pex.now.objects) }
    ensures objects { (before : List Placed) → AreObjects (judged_by loader.now) before parts.old.scripts.items parts.old.outlines.items
        → OnOk result (AreObjects (judged_by loader.now) (before ++ placed_in source.now) parts.new.scripts.items parts.new.outlines.items) }
    ensures sound { AreSoundScripts (vec_len loader.now.set.now.heads) parts.old.outlines.items parts.old.scripts.items
        → OnOk result (AreSoundScripts (vec_len loader.now.set.now.heads) parts.new.outlines.items parts.new.scripts.items) }
{
    let lines = FileLines::of(loader.alloc, source.names, source.pex)?;
    for object in &source.pex.objects {
        load_next(loader, lists, source, &lines, object, parts)?;
    }
    Ok(())
}

// Loads an object as the next script.
fn load_next(
    loader: &Loader<'_>,
    lists: &mut ObjectLists,
    source: &SetFile<'_>,
    lines: &FileLines<'_>,
    object: &PexObject,
    parts: &mut Parts,
) -> Valid<()>
    ensures count { OnOk result (vec_len parts.new.scripts ≡ vec_len parts.old.scripts + 1) }
    ensures objects { (before : List Placed) → AreObjects (judged_by loader.now) before parts.old.scripts.items parts.old.outlines.items
        → OnOk result (AreObjects (judged_by loader.now) (before ++ placed source.now object.now ∷ []) parts.new.scripts.items parts.new.outlines.items) }
    ensures sound { AreSoundScripts (vec_len loader.now.set.now.heads) parts.old.outlines.items parts.old.scripts.items
        → OnOk result (AreSoundScripts (vec_len loader.now.set.now.heads) parts.new.outlines.items parts.new.scripts.items) }
{
    let number = parts.scripts.len();
    if number >= SCRIPT_LIMIT {
        return Err(source.site(object).fault(loader.alloc, VerifyRule::TooMany));
    }
    let loaded = load_object(loader, lists, number as u16, source, lines, object)?;
    parts.outlines.push(loaded.outline)?;
    parts.scripts.push(loaded.script)?;
    Ok(())
}

//! What the files that `code_emit` writes mean is the code that was lowered. Each law is the contract of a function that does nothing.
#![tactic(auto)]

ghost use Rattle.std.specs.Prelude.{◌≡◌, ℕ, Bool, List, ◌++◌, drop, length, map, Option, Some};
ghost use Rattle.core_tree.specs.declared.core_type.CoreType.{CoreType};
ghost use Rattle.core_tree.specs.declared.script.CoreScript.{CoreScript};
ghost use Rattle.core_tree.specs.declared.script.CoreSet.{CoreSet};
ghost use Rattle.core_tree.specs.Outlines.{script_outline};
ghost use Rattle.core_tree.specs.Set as trees;
ghost use Rattle.pex_values.specs.declared.values.Datum.{Datum};
ghost use Rattle.pex_values.specs.Plain.{PlainFunction, PlainInstruction, PlainPex};
ghost use Rattle.run_laws.specs.Fits.{typed};
ghost use Rattle.pex_meaning.specs.Functions as meaning;
ghost use Rattle.pex_meaning.specs.Functions.{function_meant};
ghost use Rattle.pex_meaning.specs.Instructions.{instruction_meant, operand_meant};
ghost use Rattle.pex_meaning.specs.Meant.{outline_meant, script_meant, script_outlined, scripts_meant};
ghost use Rattle.pex_meaning.specs.Names.{object_names, type_named};
ghost use Rattle.pex_meaning.specs.Prelude.{prelude};
ghost use Rattle.code_lower.specs.declared.place.Coded.{Coded};
ghost use Rattle.code_lower.specs.declared.place.Lowered.{Lowered};
ghost use Rattle.code_lower.specs.declared.place.Place.{Place};
ghost use Rattle.code_lower.specs.Lowered.{meant, operand_of};
ghost use Rattle.code_lower.specs.Whole.{function_with};
ghost use Rattle.code_emit.specs.Spelled.{Each, Scope, SpellsCode, SpellsInstruction, SpellsPlace, SpellsScript};
ghost use Rattle.code_emit.specs.Strings.{Origin, Table, home_of, type_name};
ghost use Rattle.emit_laws.specs.Members.{ScriptFits, ScriptMeans, table_of};
ghost use Rattle.emit_laws.specs.Outlines.{OutlineFits};
ghost use Rattle.emit_laws.specs.Readable.{AreDistinct, FunctionFits, InstructionFits, IsHome, KindFits, PlaceFits, ScopeFits, scope_read};
ghost use Rattle.emit_laws.specs.Sets.{FileFits, FilesSpell, OutlinesFit, ScriptsMean};

/// An operand that spells a place is read as the operand that the place stands for: names of slots, of variables, `self` and `::State` are all told apart.
pub fn operands_are_read()
    ensures { (is_global : Bool) (scope : Scope) (kinds : List (Option CoreType)) (d : Datum) (place : Place) → ScopeFits scope kinds → PlaceFits is_global place → SpellsPlace scope d place → operand_meant (scope_read is_global scope) d ≡ operand_of place }
{}

/// The name of a type is read as the type.
pub fn types_are_read()
    ensures { (scripts : List (List ℕ)) (kind : Option CoreType) (name : List ℕ) → AreDistinct scripts → KindFits scripts kind → type_name scripts kind ≡ Some name → type_named scripts name ≡ kind }
{}

/// An instruction that spells one that was lowered is read as the one that it stands for.
pub fn instructions_are_read()
    ensures { (is_global : Bool) (scope : Scope) (kinds : List (Option CoreType)) (i : PlainInstruction) (code : Coded) → ScopeFits scope kinds → InstructionFits is_global code → SpellsInstruction scope i code → instruction_meant (scope_read is_global scope) i ≡ meant code }
{}

/// A function that spells code that was lowered means that code, with the parameters, locals, temporaries, result and flags of its tree.
pub fn functions_are_read()
    ensures { (home : meaning.Home) (table : Table) (tree : trees.Function) (lowered : Lowered) (f : PlainFunction) (temporaries : List (Option CoreType)) (name lines : List ℕ) → IsHome home table → FunctionFits table.home tree lowered → lowered.kinds.items ≡ typed tree.parameters ++ (typed tree.locals ++ temporaries) → SpellsCode table tree lowered f → function_meant home table.strings name lines f ≡ record (function_with tree temporaries lowered) { name = name; lines = lines } }
{}

/// The file that spells a script means its members in order: under its name each function is code that was lowered from its tree, with the
/// lines of its own debug entry, each Auto property is read and written by its own variable, and nothing is added.
pub fn scripts_are_read()
    ensures { (from : Origin) (file : PlainPex) (spells : SpellsScript from file) → ScriptFits from (table_of from file) spells.object (trees.script_of from.script) → ScriptMeans from (trees.script_of from.script) (script_meant (record { scripts = (home_of from).scripts; file = file; object = spells.object })) }
{}

/// Such a file has the outline of the script.
pub fn outlines_are_read()
    ensures { (from : Origin) (file : PlainPex) (spells : SpellsScript from file) → ScriptFits from (table_of from file) spells.object (trees.script_of from.script) → OutlineFits (home_of from).scripts (trees.script_of from.script) → script_outlined (record { scripts = (home_of from).scripts; file = file; object = spells.object }) ≡ script_outline from.script }
{}

/// The files that spell the scripts of a set behind those of the prelude mean these scripts in their order.
pub fn sets_are_read()
    ensures { (set : CoreSet) (first more : List CoreScript) (files : List PlainPex) → set.scripts.items ≡ first ++ more → map (λ (script : CoreScript). script.name) first ≡ object_names prelude → FilesSpell set files more → Each (FileFits set) files more → ScriptsMean set more (drop (length prelude.objects) (scripts_meant files)) }
{}

/// They have the outlines of these scripts.
pub fn set_outlines_are_read()
    ensures { (set : CoreSet) (first more : List CoreScript) (files : List PlainPex) → set.scripts.items ≡ first ++ more → map (λ (script : CoreScript). script.name) first ≡ object_names prelude → FilesSpell set files more → Each (FileFits set) files more → OutlinesFit set more → drop (length prelude.objects) (outline_meant files) ≡ map script_outline more }
{}

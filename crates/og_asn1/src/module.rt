//! The trees of modules (X.680 clause 13).
ghost use Rattle.std.specs.Prelude.{◌≡◌, [], IfOk};
ghost use Rattle.og_asn1.specs.Reading.{rest_of};
ghost use Rattle.og_asn1.specs.Trees.{assignment_at, symbol_at, import_at, imports_at, exports_at, tagging_at, module_at, modules_at};

use crate::left::Left;
use crate::many::{Production, listed, maybe, more_of};
use crate::run::{Bracket, behind_exported, tokens_to};
use crate::syntax::{
    AssignmentTree, ExportsTree, ImportTree, ImportsTree, ModuleTree, SymbolTree, Tagging,
    TaggingTree,
};
use crate::types::type_of;
use crate::value::value_of;
use og_names::NoMemory;
use sqlite_items::Items;
use std::alloc::Global;

/// `Ref "::=" type | ident type "::=" value`
struct Assignment;

impl Production for Assignment {
    type Tree = AssignmentTree;

    ghost at = { assignment_at };

    #[tactic(auto, unfolding(crate::specs::Trees::assignment_at))]
    fn read<'a>(alloc: Global, from: Left<'a>) -> Result<(AssignmentTree, Left<'a>), NoMemory> {
        let start = from.after();
        let name = start.name(alloc)?;
        if from.choice() == 0 {
            let (is, from) = type_of(alloc, start.behind().behind())?;
            return Ok((AssignmentTree::Type { name, is }, from));
        }
        let (of, from) = type_of(alloc, start.behind())?;
        let (is, from) = value_of(alloc, from.behind())?;
        Ok((AssignmentTree::Value { name, of, is }, from))
    }
}

/// `Ref | ident`
struct Symbol;

impl Production for Symbol {
    type Tree = SymbolTree;

    ghost at = { symbol_at };

    #[tactic(auto, unfolding(crate::specs::Trees::symbol_at))]
    fn read<'a>(alloc: Global, from: Left<'a>) -> Result<(SymbolTree, Left<'a>), NoMemory> {
        let start = from.after();
        let name = start.name(alloc)?;
        let symbol = if from.choice() == 0 {
            SymbolTree::Type(name)
        } else {
            SymbolTree::Value(name)
        };
        Ok((symbol, start.behind()))
    }
}

/// `symbol { "," symbol } FROM Ref [ "{" any "}" ]`
struct Import;

impl Production for Import {
    type Tree = ImportTree;

    ghost at = { import_at };

    #[tactic(auto, unfolding(crate::specs::Trees::import_at))]
    fn read<'a>(alloc: Global, from: Left<'a>) -> Result<(ImportTree, Left<'a>), NoMemory> {
        let (symbols, from) = listed::<Symbol>(alloc, from.after())?;
        let from = from.behind();
        let module = from.name(alloc)?;
        let (object, from) = maybe::<Bracket>(alloc, from.behind())?;
        let import = ImportTree {
            symbols,
            module,
            object,
        };
        Ok((import, from))
    }
}

/// `IMPORTS { import } ";"`
struct Imports;

impl Production for Imports {
    type Tree = ImportsTree;

    ghost at = { imports_at };

    #[tactic(auto, unfolding(crate::specs::Trees::imports_at))]
    fn read<'a>(alloc: Global, from: Left<'a>) -> Result<(ImportsTree, Left<'a>), NoMemory> {
        let place = from.place();
        let (imports, from) = more_of::<Import>(alloc, Items::new(alloc), from.after().behind())?;
        Ok((ImportsTree { place, imports }, from.behind()))
    }
}

/// `EXPORTS any-but-semicolon ";"`
struct Exports;

impl Production for Exports {
    type Tree = ExportsTree;

    ghost at = { exports_at };

    #[tactic(auto, unfolding(crate::specs::Trees::exports_at))]
    fn read<'a>(alloc: Global, from: Left<'a>) -> Result<(ExportsTree, Left<'a>), NoMemory> {
        let place = from.place();
        let start = from.after().behind();
        let end = behind_exported(start);
        let tokens = tokens_to(alloc, start, end)?;
        Ok((ExportsTree { place, tokens }, end.behind()))
    }
}

/// `( AUTOMATIC | EXPLICIT | IMPLICIT ) TAGS`
struct Tags;

impl Production for Tags {
    type Tree = TaggingTree;

    ghost at = { tagging_at };

    #[tactic(auto, unfolding(crate::specs::Trees::tagging_at))]
    fn read<'a>(_alloc: Global, from: Left<'a>) -> Result<(TaggingTree, Left<'a>), NoMemory> {
        let place = from.place();
        let tagging = match from.choice() {
            0 => Tagging::Automatic,
            1 => Tagging::Explicit,
            _ => Tagging::Implicit,
        };
        Ok((
            TaggingTree { place, tagging },
            from.after().behind().behind(),
        ))
    }
}

/// A module.
struct Module;

impl Production for Module {
    type Tree = ModuleTree;

    ghost at = { module_at };

    #[tactic(auto, unfolding(crate::specs::Trees::module_at))]
    fn read<'a>(alloc: Global, from: Left<'a>) -> Result<(ModuleTree, Left<'a>), NoMemory> {
        let from = from.after();
        let name = from.name(alloc)?;
        let (object, from) = maybe::<Bracket>(alloc, from.behind())?;
        let (tagging, from) = maybe::<Tags>(alloc, from.behind())?;
        let (exports, from) = maybe::<Exports>(alloc, from.behind().behind())?;
        let (imports, from) = maybe::<Imports>(alloc, from)?;
        let (assignments, from) = more_of::<Assignment>(alloc, Items::new(alloc), from)?;
        let module = ModuleTree {
            name,
            object,
            tagging,
            exports,
            imports,
            assignments,
        };
        Ok((module, from.behind()))
    }
}

/// The modules of a file.
#[tactic(auto, unfolding(crate::specs::Trees::modules_at))]
pub fn modules_of<'a>(
    alloc: Global,
    from: Left<'a>,
) -> Result<(Items<ModuleTree>, Left<'a>), NoMemory>
    ensures { IfOk result (λ x. (x.0, rest_of x.1) ≡ modules_at (rest_of from.entry)) }
{
    more_of::<Module>(alloc, Items::new(alloc), from.after())
}

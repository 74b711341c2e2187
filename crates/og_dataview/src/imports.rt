//! IMPORTS: whether each module has the symbols that are imported from it.
ghost use Rattle.std.specs.Prelude.{◌≡◌, [], ◌||◌, ◌&&◌, List, ℕ, IfOk, OnOk, is_some};
ghost use Rattle.std.specs.List.{flat_map, list_any};
ghost use Rattle.std.specs.Str.{bytes_eq};
ghost use Rattle.og_base.specs.Order.{first_from};
ghost use Rattle.og_names.specs.Folding.{place_of};
ghost use Rattle.og_dataview.specs.Scope.{key};
ghost use Rattle.og_dataview.specs.Violations.{first_symbol};
ghost use Rattle.og_dataview.specs.Exported.{has, types_in, constants_in, is_type_of, is_constant_of, symbol_by, import_by, module_by, IsExported};

use crate::index::add_name;
use crate::known::fold_byte;
use crate::notes::{note_if, note_looked_up};
use indexmap::IndexSet;
use og_asn1::{AssignmentTree, ImportTree, ModuleTree, Name, SymbolTree};
use og_base::{Rule, Violation};
use og_names::{Names, NoMemory};
use std::alloc::Global;
use std::marker::Model;

/// Names of modules with names that they declare, all of them folded.
#[derive(Drop)]
pub struct Pairs {
    set: IndexSet<(Vec<u8>, Vec<u8>)>,
}

impl Model for Pairs {
    ghost use Rattle.std.specs.Prelude.{ℕ, List, map};

    ghost Value = { List (List ℕ × List ℕ) };

    ghost view = { λ p. map (λ pair. (pair.0.items, pair.1.items)) p.set.keys };
}

/// What each module declares.
#[derive(Drop)]
pub struct Exported {
    pub modules: Names,
    pub types: Pairs,
    pub constants: Pairs,
}

/// What the modules declare.
#[tactic(auto, using(crate::proofs::Exports::exports))]
pub fn exported_of(alloc: Global, modules: &[ModuleTree]) -> Result<Exported, NoMemory>
    ensures { IfOk result (IsExported modules.now) }
{
    let mut exported = Exported {
        modules: Names::new(alloc),
        types: Pairs::new(alloc),
        constants: Pairs::new(alloc),
    };
    for module in modules {
        exported.add_module(alloc, module)?;
    }
    Ok(exported)
}

/// The folded form of a name.
fn folded(alloc: Global, name: &Name) -> Result<Vec<u8>, NoMemory>
    ensures { IfOk result (λ bytes. bytes.items ≡ key name.now) }
{
    let bytes = name.word.bytes.as_slice();
    Ok(bytes.iter().map(|byte| fold_byte(*byte)).collect(alloc)?)
}

impl Pairs {
    fn new(alloc: Global) -> Pairs
        ensures { result ≡ [] }
    {
        Pairs {
            set: IndexSet::new(alloc),
        }
    }

    /// Adds a name that a module declares.
    fn add(&mut self, alloc: Global, of: &Name, name: &Name) -> Result<(), NoMemory>
        ensures { OnOk result ((a b : List ℕ) → has self.new a b ≡ (has self.old a b || (bytes_eq a (key of.now) && bytes_eq b (key name.now)))) }
    {
        let of = folded(alloc, of)?;
        let name = folded(alloc, name)?;
        self.set.insert_full((of, name))?;
        Ok(())
    }

    /// Whether a module of this name declares the name.
    fn has(&self, alloc: Global, of: &Name, name: &Name) -> Result<bool, NoMemory>
        ensures { IfOk result (λ there. there ≡ has self.now (key of.now) (key name.now)) }
    {
        let of = folded(alloc, of)?;
        let name = folded(alloc, name)?;
        let pair = (of, name);
        Ok(self.set.contains(&pair))
    }
}

impl Exported {
    fn add_module(&mut self, alloc: Global, tree: &ModuleTree) -> Result<(), NoMemory>
        ensures modules { OnOk result ((a : List ℕ) → is_some (place_of self.new.modules a) ≡ (is_some (place_of self.old.modules a) || bytes_eq a (key tree.now.name))) }
        ensures types { OnOk result ((a b : List ℕ) → has self.new.types a b ≡ (has self.old.types a b || types_in a b tree.now)) }
        ensures constants { OnOk result ((a b : List ℕ) → has self.new.constants a b ≡ (has self.old.constants a b || constants_in a b tree.now)) }
    {
        add_name(&mut self.modules, &tree.name)?;
        self.add_all(alloc, &tree.name, tree.assignments.as_slice())?;
        Ok(())
    }

    #[tactic(auto, using(crate::proofs::Exports::exports))]
    fn add_all(
        &mut self,
        alloc: Global,
        of: &Name,
        assignments: &[AssignmentTree],
    ) -> Result<(), NoMemory>
        ensures modules { self.new.modules ≡ self.old.modules }
        ensures types { OnOk result ((a b : List ℕ) → has self.new.types a b ≡ (has self.old.types a b || (bytes_eq a (key of.now) && list_any (is_type_of b) assignments.now))) }
        ensures constants { OnOk result ((a b : List ℕ) → has self.new.constants a b ≡ (has self.old.constants a b || (bytes_eq a (key of.now) && list_any (is_constant_of b) assignments.now))) }
    {
        for assignment in assignments {
            self.add_one(alloc, of, assignment)?;
        }
        Ok(())
    }

    fn add_one(
        &mut self,
        alloc: Global,
        of: &Name,
        assignment: &AssignmentTree,
    ) -> Result<(), NoMemory>
        ensures modules { self.new.modules ≡ self.old.modules }
        ensures types { OnOk result ((a b : List ℕ) → has self.new.types a b ≡ (has self.old.types a b || (bytes_eq a (key of.now) && is_type_of b assignment.now))) }
        ensures constants { OnOk result ((a b : List ℕ) → has self.new.constants a b ≡ (has self.old.constants a b || (bytes_eq a (key of.now) && is_constant_of b assignment.now))) }
    {
        match assignment {
            AssignmentTree::Type { name, .. } => self.types.add(alloc, of, name),
            AssignmentTree::Value { name, .. } => self.constants.add(alloc, of, name),
        }
    }

    /// The violations in the IMPORTS of modules.
    #[tactic(auto, using(crate::proofs::Noting::notes))]
    pub fn note_modules(
        &self,
        alloc: Global,
        modules: &[ModuleTree],
        first: &mut Option<Violation>,
    ) -> Result<(), NoMemory>
        ensures { OnOk result (first.new ≡ first_from first.old (flat_map (module_by self.now) modules.now)) }
    {
        for module in modules {
            self.note_module(alloc, module, first)?;
        }
        Ok(())
    }

    fn note_module(
        &self,
        alloc: Global,
        tree: &ModuleTree,
        first: &mut Option<Violation>,
    ) -> Result<(), NoMemory>
        ensures { OnOk result (first.new ≡ first_from first.old (module_by self.now tree.now)) }
    {
        if let Some(imports) = &tree.imports {
            self.note_imports(alloc, imports.imports.as_slice(), first)?;
        }
        Ok(())
    }

    #[tactic(auto, using(crate::proofs::Noting::notes))]
    fn note_imports(
        &self,
        alloc: Global,
        imports: &[ImportTree],
        first: &mut Option<Violation>,
    ) -> Result<(), NoMemory>
        ensures { OnOk result (first.new ≡ first_from first.old (flat_map (import_by self.now) imports.now)) }
    {
        for import in imports {
            self.note_import(alloc, import, first)?;
        }
        Ok(())
    }

    /// N1 at the first symbol of a module that is not there, and what is wrong with each symbol of one that is.
    fn note_import(
        &self,
        alloc: Global,
        import: &ImportTree,
        first: &mut Option<Violation>,
    ) -> Result<(), NoMemory>
        ensures { OnOk result (first.new ≡ first_from first.old (import_by self.now import.now)) }
    {
        let symbols = import.symbols.as_slice();
        if self
            .modules
            .find(import.module.word.bytes.as_slice())
            .is_some()
        {
            self.note_symbols(alloc, &import.module, symbols, first)?;
        } else {
            note_first_symbol(symbols, first);
        }
        Ok(())
    }

    #[tactic(auto, using(crate::proofs::Noting::notes))]
    fn note_symbols(
        &self,
        alloc: Global,
        of: &Name,
        symbols: &[SymbolTree],
        first: &mut Option<Violation>,
    ) -> Result<(), NoMemory>
        ensures { OnOk result (first.new ≡ first_from first.old (flat_map (symbol_by self.now of.now) symbols.now)) }
    {
        for symbol in symbols {
            self.note_symbol(alloc, of, symbol, first)?;
        }
        Ok(())
    }

    fn note_symbol(
        &self,
        alloc: Global,
        of: &Name,
        symbol: &SymbolTree,
        first: &mut Option<Violation>,
    ) -> Result<(), NoMemory>
        ensures { OnOk result (first.new ≡ first_from first.old (symbol_by self.now of.now symbol.now)) }
    {
        match symbol {
            SymbolTree::Type(name) => {
                let own = self.types.has(alloc, of, name)?;
                let other = self.constants.has(alloc, of, name)?;
                note_looked_up(own, other, name, first);
                Ok(())
            }
            SymbolTree::Value(name) => {
                let own = self.constants.has(alloc, of, name)?;
                let other = self.types.has(alloc, of, name)?;
                note_looked_up(own, other, name, first);
                Ok(())
            }
        }
    }
}

/// N1 at the first of some symbols.
fn note_first_symbol(symbols: &[SymbolTree], first: &mut Option<Violation>)
    ensures { first.new ≡ first_from first.old (first_symbol symbols.now) }
{
    if let [SymbolTree::Type(name) | SymbolTree::Value(name), ..] = symbols {
        note_if(true, Rule::N1, name, first);
    }
}

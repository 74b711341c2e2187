//! The view of modules whose names are in a table.
ghost use Rattle.std.specs.Prelude.{◌≡◌, IfOk, map};
ghost use Rattle.og_dataview.specs.View.{in_order, sort_of, named_type, view_by};
ghost use Rattle.og_datatypes.specs.Fitting.{Fits};

use crate::constants::constants_of;
use crate::numbers::Numbered;
use crate::sorts::name_number;
use og_datatypes::Known;
use og_dataview::{DataView, NamedType, Scope};
use og_flat::TypeNode;
use og_names::{Names, NoMemory};
use og_types::TypeTable;
use sqlite_items::Items;
use std::alloc::Global;

/// The view of a scope whose names fit the types in it.
pub fn view_by(alloc: Global, scope: Scope, names: &Names) -> Result<DataView, NoMemory>
    requires { Fits names.now scope.flat }
    ensures { IfOk result (λ view. view ≡ view_by scope.flat names.now) }
{
    let known = Known::new(alloc, scope)?;
    let numbered = Numbered::new(alloc, known)?;
    numbered.view(alloc, names)
}

impl Numbered {
    #[tactic(auto, using(crate::proofs::Views::view_is))]
    fn view(&self, alloc: Global, names: &Names) -> Result<DataView, NoMemory>
        requires { Fits names.now self.now.known.limited.valued.scope.flat }
        ensures { IfOk result (λ view. view ≡ view_by self.now.known.limited.valued.scope.flat names.now) }
    {
        let types = self.types(alloc, names)?;
        let named = self.named_types(alloc, names)?;
        let constants = constants_of(alloc, &self.known.limited.valued, names)?;
        Ok(DataView {
            types,
            named,
            constants,
        })
    }

    /// The types in the order of their numbers.
    #[tactic(auto, using(crate::proofs::InOrder::in_turn))]
    fn types(&self, alloc: Global, names: &Names) -> Result<TypeTable, NoMemory>
        requires { Fits names.now self.now.known.limited.valued.scope.flat }
        ensures { IfOk result (λ types. types ≡ map (sort_of self.now.known.limited.valued.scope.flat names.now)
            (in_order self.now.known.limited.valued.scope.flat)) }
    {
        let mut types = TypeTable::new(alloc);
        for place in self.order.types.as_slice() {
            let sort = self.sort_of(alloc, names, *place)?;
            types.add(sort)?;
        }
        Ok(types)
    }

    fn named_types(&self, alloc: Global, names: &Names) -> Result<Items<NamedType>, NoMemory>
        ensures { IfOk result (λ named. named ≡ map (named_type self.now.known.limited.valued.scope.flat names.now)
            self.now.known.limited.valued.scope.flat.types) }
    {
        let mut named = Items::new(alloc);
        for declared in self.known.limited.valued.scope.flat.types.as_slice() {
            named.push(self.named_type(names, declared))?;
        }
        Ok(named)
    }

    fn named_type(&self, names: &Names, declared: &TypeNode) -> NamedType
        ensures { result ≡ named_type self.now.known.limited.valued.scope.flat names.now declared.now }
    {
        NamedType {
            name: name_number(names, &declared.name),
            sort: self.number(declared.node),
            place: declared.name.place,
        }
    }
}

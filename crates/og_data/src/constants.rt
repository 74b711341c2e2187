//! The constants of a view.
ghost use Rattle.std.specs.Prelude.{◌≡◌, IfOk, map};
ghost use Rattle.std.specs.List.{enumerate_from};
ghost use Rattle.og_dataview.specs.View.{constant_in_view};

use crate::sorts::name_number;
use og_datatypes::Valued;
use og_dataview::{Constant, counted};
use og_flat::ConstantNode;
use og_names::{Names, NoMemory};
use sqlite_items::Items;
use std::alloc::Global;

/// The constants with their numbers, in the order of the text.
pub fn constants_of(
    alloc: Global,
    valued: &Valued,
    names: &Names,
) -> Result<Items<Constant>, NoMemory>
    ensures { IfOk result (λ constants.
        constants ≡ map (constant_in_view valued.now.scope.flat names.now) (enumerate_from 0 valued.now.scope.flat.constants)) }
{
    let declared = valued.scope.flat.constants.as_slice();
    let count = counted(declared.len())?;
    let mut constants = Items::new(alloc);
    for place in 0..count {
        constants.push(constant_of(valued, names, place, &declared[place as usize]))?;
    }
    Ok(constants)
}

fn constant_of(valued: &Valued, names: &Names, place: u32, declared: &ConstantNode) -> Constant
    ensures { result ≡ constant_in_view valued.now.scope.flat names.now (place, declared.now) }
{
    Constant {
        name: name_number(names, &declared.name),
        value: valued.value_of(place),
        place: declared.name.place,
    }
}

//! Types with their values and sizes, computed from the definitions. Each function does nothing, and its contract says what
//! the definitions give.
#![tactic(auto, unfolding(crate::proofs::Computing::values))]

ghost use Rattle.og_types.specs.Examples.{EachTypeHasItsCells, EachTypeHasItsDepth, EachTypeHasAFirstValue, OpaqueTypesAreFound, EachTypeHasItsValues, TablesAreTold};

/// Cells of each kind of type, up to the limit and past it.
pub fn each_type_has_its_cells()
    ensures { EachTypeHasItsCells }
{}

pub fn each_type_has_its_depth()
    ensures { EachTypeHasItsDepth }
{}

pub fn each_type_has_a_first_value()
    ensures { EachTypeHasAFirstValue }
{}

/// A type is not supported where one that it needs is opaque.
pub fn opaque_types_are_found()
    ensures { OpaqueTypesAreFound }
{}

/// Values that are in their types, and values that just miss them.
pub fn each_type_has_its_values()
    ensures { EachTypeHasItsValues }
{}

/// Tables, and lists of types that just miss being one.
pub fn tables_are_told()
    ensures { TablesAreTold }
{}

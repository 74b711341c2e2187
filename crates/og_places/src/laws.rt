//! Laws of places, each as the contract of a function that does nothing.
ghost use Rattle.std.specs.Prelude.{◌≡◌, ◌++◌, List};
ghost use Rattle.og_ast.specs.declared.system.Unit.{Unit as UnitTree};
ghost use Rattle.og_places.specs.Contents.{places_in_units};

/// The places that the trees of several files keep are those of each file, one file behind the other.
pub fn places_of_several_files()
    ensures { (units more : List UnitTree) → places_in_units (units ++ more) ≡ places_in_units units ++ places_in_units more }
{}

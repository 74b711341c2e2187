//! What holds of the types of modules. The function does nothing, and its contract is the law.
ghost use Rattle.std.specs.Prelude.{◌≡◌, ℕ, List, true, None};
ghost use Rattle.og_types.specs.Table.{is_table};
ghost use Rattle.og_asn1.specs.declared.syntax.ModuleTree.{ModuleTree};
ghost use Rattle.og_flat.specs.Flattening.{flat_of};
ghost use Rattle.og_dataview.specs.Violations.{first_violation};
ghost use Rattle.og_dataview.specs.View.{names_after, view_of};
ghost use Rattle.og_datatypes.specs.Fitting.{Fits, AreFew};

/// Modules that violate no rule on names fit the names that they declare, and their types are a table: each type refers to
/// earlier ones alone, and none is more than 64 deep.
pub fn types_are_a_table()
    ensures names { (modules : List ModuleTree) (names : List (List ℕ)) → first_violation modules ≡ None → Fits (names_after names modules) (flat_of modules) }
    ensures table { (modules : List ModuleTree) (names : List (List ℕ)) → first_violation modules ≡ None →
        AreFew (view_of names modules).types → is_table (view_of names modules).types ≡ true }
{}

//! What holds of the cells of values, and of the numbers that flat code computes.

ghost use Rattle.std.specs.Prelude.{◌≡◌, ℤ, List, Bool, true, Some};
ghost use Rattle.og_types.specs.declared.Sort.{Sort};
ghost use Rattle.og_types.specs.declared.TypeId.{TypeId};
ghost use Rattle.og_types.specs.declared.Value.{Value};
ghost use Rattle.og_types.specs.Values.{is_in};
ghost use Rattle.og_ir.specs.declared.Flat.{Flat as Expression, out-Flat};
ghost use Rattle.og_ir.specs.Cells.{Cells};
ghost use Rattle.og_ir.specs.Reading.{value_in, cells_of};
ghost use Rattle.og_ir.specs.FlatSteps.{value_by, value_of};

/// The cells of a value of a type hold that value, and what cells hold as a value of a type is in that type.
pub fn cells_hold_values()
    ensures again { (sorts : List Sort) (t : TypeId) (v : Value) → is_in sorts t v ≡ true
        → value_in sorts t (cells_of sorts t v) ≡ Some v }
    ensures in_type { (sorts : List Sort) (t : TypeId) (cells : Cells) (v : Value) → value_in sorts t cells ≡ Some v
        → is_in sorts t v ≡ true }
{}

/// The value of an expression of flat code is made of the values of its parts.
pub fn code_values_of_parts()
    ensures { (is_there : ℤ → Bool) (slots : List Cells) (e : Expression)
        → value_of is_there slots e ≡ value_by (value_of is_there slots) is_there slots (out-Flat e) }
{}

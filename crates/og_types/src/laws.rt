//! What holds of the values of types. Each function does nothing, and its contract is the law.
ghost use Rattle.og_types.specs.Laws.{TypesAreByParts, TablesAreDownward, FurtherTypesMakeTables, EarlierTypesStay, FirstValuesAreInTheirTypes};

/// What is asked of a type goes by the same of the types that it refers to.
pub fn types_are_by_parts()
    ensures { TypesAreByParts }
{}

/// In a table each type refers to earlier ones only.
pub fn tables_are_downward()
    ensures { TablesAreDownward }
{}

/// A type behind a table makes a table of them exactly where it may stand there.
pub fn further_types_make_tables()
    ensures { FurtherTypesMakeTables }
{}

/// Types that come behind a table change nothing of its types.
pub fn earlier_types_stay()
    ensures { EarlierTypesStay }
{}

/// The first value of a type is one of it.
pub fn first_values_are_in_their_types()
    ensures { FirstValuesAreInTheirTypes }
{}

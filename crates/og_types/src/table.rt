//! Tables of types.
ghost use Rattle.std.specs.Prelude.{◌≡◌, ◌<◌, ◌≤◌, ◌-◌, ◌^◌, [], ◌∷◌, ◌++◌, length, slice_get, IsTrue, Some, IfOk, OnOk, OnErr};
ghost use Rattle.std.specs.Option.{option_copied};
ghost use Rattle.og_types.specs.Values.{first as first_value, is_in, cells as cells_counted, is_supported as is_supported_type, RefersBelow};
ghost use Rattle.og_types.specs.Table.{is_table, depth as depth_in_table, depth_of_sort, MayStandBehind};
ghost use Rattle.og_types.specs.Measures.{measure as measure_in_table};

use crate::first::first_within;
use crate::measures::{Measure, cells_of, depth_of, is_supported};
use crate::{Sort, TypeId, Value};
use og_names::NoMemory;
use sqlite_items::Items;
use std::alloc::Global;
use std::marker::Model;

/// The types of a model, by their numbers. A type refers to types of smaller numbers only, and none is more than 64 deep.
#[derive(Debug, Drop)]
pub struct TypeTable {
    pub(crate) sorts: Items<Sort>,
    pub(crate) measures: Items<Measure>,
}

impl Model for TypeTable {
    ghost use Rattle.std.specs.Prelude.{List};
    ghost use Rattle.og_types.specs.declared.Sort.{Sort};
    ghost use Rattle.og_types.specs.Measures.{IsKept};

    ghost Value = { List Sort };

    ghost view = { λ t. t.sorts };

    ghost invariant = { λ t. IsKept t.sorts t.measures };
}

impl TypeTable {
    /// A table without types.
    pub fn new(alloc: Global) -> TypeTable
        ensures { result ≡ [] }
    {
        TypeTable {
            sorts: Items::new(alloc),
            measures: Items::new(alloc),
        }
    }

    /// How many types there are. What every table keeps is said here for callers.
    pub fn len(&self) -> usize
        ensures value { result ≡ length self.now }
        ensures table { IsTrue (is_table self.now) }
        ensures few { length self.now < 2 ^ 32 }
    {
        self.sorts.len()
    }

    /// The types, one after the other.
    pub fn as_slice(&self) -> &[Sort]
        ensures { result.now ≡ self.now }
    {
        self.sorts.as_slice()
    }

    /// The type of this number.
    pub fn get(&self, id: TypeId) -> Option<&Sort>
        ensures { option_copied result ≡ slice_get self.now id.0 }
    {
        self.sorts.get(id.0 as usize)
    }

    /// How deep a type is that refers to types of the table. One that is more than 64 deep may not be added.
    pub fn depth_of(&self, sort: &Sort) -> u32
        requires { RefersBelow (length self.now) sort.now }
        ensures { result ≡ depth_of_sort (depth_in_table self.now) (Some sort.now) }
    {
        depth_of(self.measures.as_slice(), sort)
    }

    /// Adds a type, and gives it the next number.
    pub fn add(&mut self, sort: Sort) -> Result<TypeId, NoMemory>
        requires behind { MayStandBehind self.old sort }
        requires few { length self.old < 2 ^ 32 - 1 }
        ensures added { OnOk result (self.new ≡ self.old ++ sort ∷ []) }
        ensures number { IfOk result (λ id. id.0 ≡ length self.old) }
        ensures refused { OnErr result (self.new ≡ self.old) }
    {
        let number = self.sorts.len();
        let measures = self.measures.as_slice();
        let measure = Measure {
            depth: depth_of(measures, &sort) as u8,
            cells: cells_of(measures, &sort),
            supported: is_supported(measures, &sort),
        };
        push_both(&mut self.sorts, &mut self.measures, sort, measure)?;
        Ok(TypeId(number as u32))
    }

    /// How deep the type is.
    pub fn depth(&self, id: TypeId) -> u32
        requires { id.0 < length self.now }
        ensures value { result ≡ depth_in_table self.now id }
        ensures bound { result ≤ 64 }
    {
        u32::from(self.measure(id).depth)
    }

    /// The cells that a value of the type takes, counted up to 65,537.
    pub fn cells(&self, id: TypeId) -> u32
        requires { id.0 < length self.now }
        ensures { result ≡ cells_counted self.now id }
    {
        self.measure(id).cells
    }

    /// Whether neither the type nor one that it needs is opaque.
    pub fn is_supported(&self, id: TypeId) -> bool
        requires { id.0 < length self.now }
        ensures { result ≡ is_supported_type self.now id }
    {
        self.measure(id).supported
    }

    fn measure(&self, id: TypeId) -> Measure
        requires { id.0 < length self.now }
        ensures value { result ≡ measure_in_table self.now id }
        ensures shallow { result.depth ≤ 64 }
    {
        self.measures.as_slice()[id.0 as usize]
    }

    /// The value that a variable of the type has where the text gives it none. It takes time by its cells.
    pub fn first(&self, alloc: Global, id: TypeId) -> Result<Value, NoMemory>
        requires known { id.0 < length self.now }
        requires supported { IsTrue (is_supported_type self.now id) }
        requires few_cells { cells_counted self.now id ≤ 65536 }
        ensures value { IfOk result (λ value. value ≡ first_value self.now id) }
        ensures in_type { IfOk result (λ value. IsTrue (is_in self.now id value)) }
    {
        first_within(alloc, id.0 as usize + 1, self.sorts.as_slice(), id)
    }
}

/// Adds to both lists, or to none.
fn push_both(
    sorts: &mut Items<Sort>,
    measures: &mut Items<Measure>,
    sort: Sort,
    measure: Measure,
) -> Result<(), NoMemory>
    ensures sorts { OnOk result (sorts.new ≡ sorts.old ++ sort ∷ []) }
    ensures measures { OnOk result (measures.new ≡ measures.old ++ measure ∷ []) }
    ensures sorts_kept { OnErr result (sorts.new ≡ sorts.old) }
    ensures measures_kept { OnErr result (measures.new ≡ measures.old) }
{
    measures.push(measure)?;
    if let Err(error) = sorts.push(sort) {
        measures.pop();
        return Err(NoMemory::from(error));
    }
    Ok(())
}

//! Copies of types, values and tables of types. Each copy equals what it copies.
ghost use Rattle.std.specs.Prelude.{◌≡◌, IfOk};

use crate::{Sort, TypeTable, Value};
use og_names::NoMemory;
use sqlite_items::{Boxed, Items};
use std::alloc::Global;

impl Sort {
    /// The same type once more.
    pub fn copy(&self, alloc: Global) -> Result<Sort, NoMemory>
        ensures { IfOk result (λ sort. sort ≡ self.now) }
    {
        Ok(match self {
            Sort::Int { lo, hi } => Sort::Int { lo: *lo, hi: *hi },
            Sort::Bool => Sort::Bool,
            Sort::Enumerated { names, numbers } => Sort::Enumerated {
                names: Items::from_slice(alloc, names.as_slice())?,
                numbers: Items::from_slice(alloc, numbers.as_slice())?,
            },
            Sort::Sequence { parts } => Sort::Sequence {
                parts: Items::from_slice(alloc, parts.as_slice())?,
            },
            Sort::Choice { parts } => Sort::Choice {
                parts: Items::from_slice(alloc, parts.as_slice())?,
            },
            Sort::SeqOf { lo, hi, item } => Sort::SeqOf {
                lo: *lo,
                hi: *hi,
                item: *item,
            },
            Sort::Opaque => Sort::Opaque,
        })
    }
}

impl Value {
    /// The same value once more.
    #[cycle(copying)]
    pub fn copy(&self, alloc: Global) -> Result<Value, NoMemory>
        ensures { IfOk result (λ value. value ≡ self.now) }
    {
        Ok(match self {
            Value::Int(number) => Value::Int(*number),
            Value::Bool(truth) => Value::Bool(*truth),
            Value::Enumerated(place) => Value::Enumerated(*place),
            Value::Sequence(parts) => Value::Sequence(copy_values(alloc, parts.as_slice())?),
            Value::Choice(alternative, value) => {
                Value::Choice(*alternative, Boxed::new(alloc, value.get().copy(alloc)?)?)
            }
            Value::SeqOf(items) => Value::SeqOf(copy_values(alloc, items.as_slice())?),
        })
    }
}

#[cycle(copying)]
fn copy_values(alloc: Global, values: &[Value]) -> Result<Items<Value>, NoMemory>
    ensures { IfOk result (λ copied. copied ≡ values.now) }
{
    let mut copied = Items::new(alloc);
    for value in values {
        copied.push(value.copy(alloc)?)?;
    }
    Ok(copied)
}

impl TypeTable {
    /// The same types with the same numbers.
    pub fn copy(&self, alloc: Global) -> Result<TypeTable, NoMemory>
        ensures { IfOk result (λ table. table ≡ self.now) }
    {
        let sorts = copy_sorts(alloc, self.sorts.as_slice())?;
        let measures = Items::from_slice(alloc, self.measures.as_slice())?;
        Ok(TypeTable { sorts, measures })
    }
}

fn copy_sorts(alloc: Global, sorts: &[Sort]) -> Result<Items<Sort>, NoMemory>
    ensures { IfOk result (λ copied. copied ≡ sorts.now) }
{
    let mut copied = Items::new(alloc);
    for sort in sorts {
        copied.push(sort.copy(alloc)?)?;
    }
    Ok(copied)
}

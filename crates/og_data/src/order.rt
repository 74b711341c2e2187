//! The order of types: those less deep first, and opaque ones behind all others.
ghost use Rattle.std.specs.Prelude.{◌≡◌, ◌++◌, ℕ, suc, IfOk, OnOk};
ghost use Rattle.og_dataview.specs.View.{greatest_depth, is_within, is_supported, deeper, opaque, in_order};
ghost use Rattle.og_datatypes.specs.Kept.{AreMarked};
ghost use Rattle.og_data.specs.Order.{one_if, is_new, is_left, Ordered};

use og_datatypes::{Known, is_set};
use og_dataview::counted;
use og_names::NoMemory;
use std::alloc::Global;

/// The depth at which types end that are supported.
const GREATEST_DEPTH: u32 = 64;

/// Types in their order, and marks for those that are supported.
#[derive(Drop)]
pub struct Order {
    pub types: Vec<u32>,
    pub supported: Vec<bool>,
}

/// All types that share the number of no other one, in the order of their numbers.
#[tactic(auto, using(crate::proofs::Orders::orders))]
pub fn order_of(alloc: Global, known: &Known) -> Result<Order, NoMemory>
    ensures types { IfOk result (λ order. order.types.items ≡ in_order known.now.limited.valued.scope.flat) }
    ensures supported { IfOk result (λ order. AreMarked (is_supported known.now.limited.valued.scope.flat) order.supported.items) }
{
    let mut order = by_depth(alloc, known)?;
    add_opaque(known, order.supported.as_slice(), &mut order.types)?;
    Ok(order)
}

/// The types that are supported, those less deep first.
#[tactic(auto, using(crate::proofs::Orders::orders))]
fn by_depth(alloc: Global, known: &Known) -> Result<Order, NoMemory>
    ensures { IfOk result (λ order. Ordered known.now.limited.valued.scope.flat greatest_depth order.types.items order.supported.items) }
{
    let mut types = Vec::new(alloc);
    let mut supported = Vec::new(alloc);
    for _depth in 0..GREATEST_DEPTH {
        let next = known.one_deeper(alloc, supported.as_slice())?;
        add_deeper(known, supported.as_slice(), next.as_slice(), &mut types)?;
        supported = next;
    }
    Ok(Order { types, supported })
}

/// Adds the types that are one deeper than those that are marked.
#[tactic(auto, using(crate::proofs::Orders::filters))]
fn add_deeper(
    known: &Known,
    within: &[bool],
    next: &[bool],
    types: &mut Vec<u32>,
) -> Result<(), NoMemory>
    ensures { OnOk result ((depth : ℕ) → AreMarked (is_within known.now.limited.valued.scope.flat depth) within.now →
        AreMarked (is_within known.now.limited.valued.scope.flat (suc depth)) next.now →
        types.new.items ≡ types.old.items ++ deeper known.now.limited.valued.scope.flat depth) }
{
    let count = counted(known.limited.valued.scope.flat.nodes.len())?;
    for place in 0..count {
        push_if(types, is_new(known, within, next, place), place)?;
    }
    Ok(())
}

/// Adds the types that are opaque.
#[tactic(auto, using(crate::proofs::Orders::filters))]
fn add_opaque(known: &Known, supported: &[bool], types: &mut Vec<u32>) -> Result<(), NoMemory>
    ensures { OnOk result (AreMarked (is_supported known.now.limited.valued.scope.flat) supported.now →
        types.new.items ≡ types.old.items ++ opaque known.now.limited.valued.scope.flat) }
{
    let count = counted(known.limited.valued.scope.flat.nodes.len())?;
    for place in 0..count {
        push_if(types, is_left(known, supported, place), place)?;
    }
    Ok(())
}

fn push_if(types: &mut Vec<u32>, is_one: bool, place: u32) -> Result<(), NoMemory>
    ensures { OnOk result (types.new.items ≡ types.old.items ++ one_if is_one place) }
{
    if is_one {
        types.push(place)?;
    }
    Ok(())
}

fn is_new(known: &Known, within: &[bool], next: &[bool], place: u32) -> bool
    ensures { result ≡ is_new known.now.limited.valued.scope.flat within.now next.now place }
{
    known.is_own(place) && (is_set(next, place) && !is_set(within, place))
}

fn is_left(known: &Known, supported: &[bool], place: u32) -> bool
    ensures { result ≡ is_left known.now.limited.valued.scope.flat supported.now place }
{
    known.is_own(place) && !is_set(supported, place)
}

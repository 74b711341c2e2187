//! The numbers of types: their places in the order.
ghost use Rattle.std.specs.Prelude.{◌≡◌, ℕ, suc, List, IfOk, Some, length, slice_get, unwrap_or};
ghost use Rattle.og_dataview.specs.View.{in_order, is_supported, type_number};
ghost use Rattle.og_datatypes.specs.Kept.{AreMarked};
ghost use Rattle.og_data.specs.Order.{AreNumbers, Placed};

use crate::order::{Order, order_of};
use og_datatypes::Known;
use og_dataview::counted;
use og_names::NoMemory;
use og_types::TypeId;
use std::alloc::Global;

/// What is known of types, with their order and their numbers.
#[derive(Drop)]
pub struct Numbered {
    pub known: Known,
    pub order: Order,
    /// How many types the order has.
    pub count: u32,
    pub numbers: Vec<u32>,
    pub ghost is_order: { order.types.items ≡ in_order known.limited.valued.scope.flat },
    pub ghost are_supported: { AreMarked (is_supported known.limited.valued.scope.flat) order.supported.items },
    pub ghost is_count: { count ≡ length order.types.items },
    pub ghost are_numbers: { AreNumbers (in_order known.limited.valued.scope.flat) count numbers.items },
}

impl Numbered {
    /// The types with their numbers.
    #[tactic(auto, using(crate::proofs::Places::numbers_are))]
    pub fn new(alloc: Global, known: Known) -> Result<Numbered, NoMemory>
        ensures { IfOk result (λ numbered. numbered.known.limited.valued.scope.flat ≡ known.limited.valued.scope.flat) }
    {
        let order = order_of(alloc, &known)?;
        let count = counted(order.types.len())?;
        let nodes = known.limited.valued.scope.flat.nodes.len();
        let numbers = places_in(alloc, order.types.as_slice(), count, nodes)?;
        Ok(Numbered {
            known,
            order,
            count,
            numbers,
        })
    }

    /// The number of a type, which is that of the type that it names where it is another name of that one.
    #[tactic(auto, using(crate::proofs::Places::number_is))]
    pub fn number(&self, place: u32) -> TypeId
        ensures { result ≡ type_number self.now.known.limited.valued.scope.flat place }
    {
        let own = self.known.same_as(place);
        TypeId(number_at(self.numbers.as_slice(), self.count, own))
    }
}

/// The number that is kept of a type, or the number of all types.
fn number_at(numbers: &[u32], count: u32, place: u32) -> u32
    ensures { result ≡ unwrap_or (slice_get numbers.now place) count }
{
    numbers.get(place as usize).copied().unwrap_or(count)
}

/// The place of each type in an order of so many types.
#[tactic(auto, using(crate::proofs::Places::placings))]
fn places_in(alloc: Global, order: &[u32], count: u32, nodes: usize) -> Result<Vec<u32>, NoMemory>
    requires { count ≡ length order.now }
    ensures { IfOk result (λ numbers. Placed order.now nodes 0 numbers.items) }
{
    let mut numbers = vec![in alloc; count; nodes]?;
    for back in 0..count {
        let at = count - 1 - back;
        keep(&mut numbers, order[at as usize], at);
    }
    Ok(numbers)
}

/// Keeps the place of a type, before others are kept that stand before it in the order.
#[tactic(auto, using(crate::proofs::Places::keeping))]
fn keep(numbers: &mut Vec<u32>, place: u32, at: u32)
    ensures { (order : List ℕ) (nodes : ℕ) → slice_get order at ≡ Some place →
        Placed order nodes (suc at) numbers.old.items → Placed order nodes at numbers.new.items }
{
    let place = place as usize;
    if place < numbers.len() {
        numbers[place] = at;
    }
}

//! The data that modules of ASN.1 declare (X.680), and the rules on names that they keep.
#![tactic(auto)]

mod constants;
mod counting;
mod imports;
mod index;
mod known;
pub mod laws;
mod naming;
mod notes;
mod numbers;
mod repeats;
mod scope;
mod uses;
mod view;
mod violations;
mod ways;

pub use constants::within_64_bits;
pub use counting::counted;
pub use known::is_boolean;
pub use naming::add_all as add_names;
pub use numbers::{Interval, signed};
pub use repeats::as_number;
pub use scope::{Scope, next_types, node_of};
pub use view::{Constant, DataView, NamedType};
pub use violations::{first_in, first_violation};
pub use ways::{next_in, then, walked};

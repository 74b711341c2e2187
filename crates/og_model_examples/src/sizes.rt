//! The sizes of some of the examples, counted by hand.

ghost use Rattle.std.specs.Prelude.{◌≡◌};
ghost use Rattle.og_model.specs.Size.{bulk, inlined};
ghost use Rattle.og_model_examples.specs.Procedures.{joining, sharing};
ghost use Rattle.og_model_examples.specs.Nested.{dashing, guarded, joined};
ghost use Rattle.og_model_examples.specs.Continuous.{by_place};
ghost use Rattle.og_model_examples.specs.Aggregations as Aggregations;

/// A connection, each answer and each node of a condition counts one; a procedure counts at each call, a hook at its state.
pub fn inlined_sizes()
    ensures connection { inlined joined ≡ 17 }
    ensures decisions { inlined joining ≡ 28 }
    ensures hooks { inlined dashing ≡ 24 }
    ensures conditions { inlined by_place ≡ 26 }
    ensures calls { inlined sharing ≡ 32 }
    ensures partitions { inlined Aggregations.completing ≡ 18 }
{}

/// The bulk is four times the sum of the size with its additions, the nesting, the cells and the numbers of things.
pub fn bulks()
    ensures input { bulk guarded ≡ 100 }
    ensures calls { bulk sharing ≡ 220 }
    ensures partitions { bulk Aggregations.completing ≡ 188 }
{}

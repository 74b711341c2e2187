//! What holds of each run of single steps, and of each run of flat code.

ghost use Rattle.std.specs.Prelude.{◌≡◌, ℕ, ℤ, ◌+◌, List, Bool, Option, ◌⊎◌};
ghost use Rattle.og_ir.specs.declared.Ir.{Ir as Code};
ghost use Rattle.og_ir.specs.Cells.{Cells};
ghost use Rattle.og_ir.specs.Arithmetic.{Trouble, Overflow, in_64_bits, any_number};
ghost use Rattle.og_ir.specs.Steps.{Config, Over, Broken, Ran, quiet, and_then, exec};
ghost use Rattle.og_ir.specs.FlatSteps.{flat_step};

/// A run of j + k steps is one of j steps, and then one of k steps from where that one has come to.
pub fn steps_split<E>()
    ensures { (step : Config → Ran E) (j k : ℕ) (config : Config)
        → exec step (j + k) config ≡ and_then (exec step j config) (exec step k) }
{}

/// A run of flat code that is over or broken stays as it is.
pub fn ended_code_stays<E>()
    ensures over { (shows : ℕ → List Cells → Option E) (is_there : ℤ → Bool) (ir : Code) (n : ℕ) (slots : List Cells)
        → exec (flat_step shows is_there ir) n (Over slots) ≡ quiet (Over slots) }
    ensures broken { (shows : ℕ → List Cells → Option E) (is_there : ℤ → Bool) (ir : Code) (n : ℕ) (trouble : Trouble)
        → exec (flat_step shows is_there ir) n (Broken trouble) ≡ quiet (Broken trouble) }
{}

/// A run of flat code with the numbers of 64 bits has come to a number that is not there, or with all numbers it is the same.
pub fn code_in_64_bits<E>()
    ensures { (shows : ℕ → List Cells → Option E) (ir : Code) (n : ℕ) (config : Config)
        → ((exec (flat_step shows in_64_bits ir) n config).config ≡ Broken Overflow)
        ⊎ (exec (flat_step shows any_number ir) n config ≡ exec (flat_step shows in_64_bits ir) n config) }
{}

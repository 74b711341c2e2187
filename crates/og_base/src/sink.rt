ghost use Rattle.std.specs.Prelude.{◌≡◌, ℕ, ◌≤◌, ◌<◌, List, Option, length, take, IfOk, OnErr};
ghost use Rattle.og_base.specs.Sink.{grown};
ghost use Rattle.og_base.specs.Store.{Rose};

use crate::Failed;

/// What takes bytes in order.
pub trait Sink {
    /// What was written, where the sink tells it.
    ghost written: { Self → Option (List ℕ) };

    /// How often writing failed. The count stays at the greatest number of 64 bits once it is there.
    ghost faults: { Self → ℕ };

    /// Takes bytes from the front, at least one where there is one, and answers how many. A failed call takes none.
    fn write(&mut self, bytes: &[u8]) -> Result<usize, Failed>
        ensures within { IfOk result (λ count. count ≤ length bytes.now) }
        ensures progress { IfOk result (λ count. 0 < length bytes.now → 0 < count) }
        ensures taken { IfOk result (λ count. written self.new ≡ grown (take count bytes.now) (written self.old)) }
        ensures refused { OnErr result (written self.new ≡ written self.old) }
        ensures fault { OnErr result (Rose (faults self.old) (faults self.new)) }
        ensures counts { faults self.old ≤ faults self.new };
}

ghost use Rattle.std.specs.Prelude.{◌≡◌, ℕ, ◌≤◌, List, OnOk, OnErr};
ghost use Rattle.og_base.specs.Store.{Rose};
ghost use Rattle.og_base.specs.Sink.{grown, WroteFront};

use crate::{Failed, Sink};

/// Writes all the bytes. After `Failed` a front of them was written.
pub fn write_all<K: Sink>(sink: &mut K, bytes: &[u8]) -> Result<(), Failed>
    ensures ok { OnOk result (K.written sink.new ≡ grown bytes.now (K.written sink.old)) }
    ensures front { OnErr result (WroteFront bytes.now (K.written sink.old) (K.written sink.new)) }
    ensures fault { OnErr result (Rose (K.faults sink.old) (K.faults sink.new)) }
    ensures counts { K.faults sink.old ≤ K.faults sink.new }
{
    let mut rest = bytes;
    while !rest.is_empty() {
        let count = sink.write(rest)?;
        let (_, back) = rest.split_at(count);
        rest = back;
    }
    Ok(())
}

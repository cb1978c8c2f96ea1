//! Writing a whole piece to any sink, in as many writes as the sink asks for.
ghost use Rattle.std.specs.Prelude.{OnOk, OnErr};
ghost use Rattle.outer_io.specs.Ends.{Put, PutFront, Counts};

use crate::{Failed, Sink};

/// Writes all bytes, in order. `Failed` comes where a write of the sink failed; some first part was taken then.
pub fn write_all<K: Sink>(sink: &mut K, bytes: &[u8]) -> Result<(), Failed>
    ensures ok { OnOk result (Put bytes.now (K.held sink.old) (K.held sink.new)) }
    ensures err { OnErr result (PutFront bytes.now (K.held sink.old) (K.held sink.new)) }
    ensures counts { Counts result (K.sink_faults sink.old) (K.sink_faults sink.new) }
{
    let mut at = 0;
    while at < bytes.len() {
        at += sink.write(&bytes[at..])?;
    }
    Ok(())
}

//! Writing a reply.
ghost use Rattle.std.specs.Prelude.{OnOk, OnErr};
ghost use Rattle.std.specs.Io.KnownBytes.{Appends};
ghost use Rattle.sig_base.specs.Stream.{HasCause};
ghost use Rattle.sig_program.specs.Run.{AppendsFront, HandsRests};

use sig_base::{Failed, Sink};

/// Writes all the bytes, and gives the sink all that are left at each call. After `Failed`, which comes only if the
/// sink's count of faults rose, a prefix of them was written.
#[tactic(auto, using(crate::proofs::SinkWrites::turns))]
pub fn write_reply<K: Sink>(sink: &mut K, bytes: &[u8]) -> Result<(), Failed>
    ensures ok { OnOk result (Appends (K.taken sink.old) (K.taken sink.new) bytes.now) }
    ensures err { OnErr result (AppendsFront (K.taken sink.old) (K.taken sink.new) bytes.now) }
    ensures pieces { HandsRests (K.handed sink.old) (K.handed sink.new) bytes.now }
    ensures cause { HasCause (K.faults sink.old) (K.faults sink.new) result }
{
    let mut done = 0;
    'turns: while done < bytes.len() {
        let (_, rest) = bytes.split_at(done);
        let count = sink.write(rest)?;
        done += count;
    }
    Ok(())
}

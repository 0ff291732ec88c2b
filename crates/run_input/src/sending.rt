//! What waits of a reply goes out.

#![tactic(auto)]

ghost use Rattle.std.specs.Prelude.{◌≡◌, ◌≤◌, []};
ghost use Rattle.buffered_sink.specs.Handing.{Hands};
ghost use Rattle.run_input.specs.Sent.{Sent};

use crate::ending::Ending;
use afl_base::{Failed, Sink};
use buffered_sink::{Buffered, Since};

/// Hands on what waits of a reply, unless the sink has failed before. What waits after a fault of the
/// flash goes out as far as the sink takes it.
// Inlined, since nothing waits after most bytes.
#[inline(always)]
pub fn send<'a, K: Sink, S: Since>(
    gathered: &mut Buffered<'a, K, S>,
    answered: Result<(), Ending>,
) -> Result<(), Ending>
    ensures hands { Hands (K.held gathered.old.out.now) (K.held gathered.new.out.now)
        gathered.old.waiting.now.bytes gathered.new.waiting.now.bytes }
    ensures sent { Sent answered (K.faults gathered.old.out.now) (K.faults gathered.new.out.now)
        gathered.new.waiting.now.bytes result }
    ensures lent { ⟦<Buffered<'a, K, S> as Sink>⟧.lent gathered.new
        ≡ ⟦<Buffered<'a, K, S> as Sink>⟧.lent gathered.old }
    ensures faultless { gathered.new.waiting.now.bytes ≡ []
        → K.faults gathered.new.out.now ≡ K.faults gathered.old.out.now }
    ensures later { K.faults gathered.old.out.now ≤ K.faults gathered.new.out.now }
{
    if gathered.waiting.is_empty() {
        return answered;
    }
    match answered {
        Ok(()) => match gathered.flush() {
            Ok(()) => Ok(()),
            Err(Failed) => Err(Ending::Sink),
        },
        Err(Ending::Space) => match gathered.flush() {
            Ok(()) => Err(Ending::Space),
            Err(Failed) => Err(Ending::Sink),
        },
        Err(Ending::Flash) => {
            let _sent = gathered.flush();
            Err(Ending::Flash)
        }
        Err(Ending::Sink) => Err(Ending::Sink),
    }
}

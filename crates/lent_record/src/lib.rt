// The thin entry: the record is lent, and the new one is stored. Nothing relies on checks by its caller.
#![tactic(auto)]

ghost use Rattle.std.specs.Prelude.{length};
ghost use Rattle.record.specs.Answer.{Meets};
ghost use Rattle.rules.specs.Rules.{outcome};

use record::{Guest, Refusal, Verdict};
use slirp::handle;

// What a frame of this guest gets. The promise is `handle`'s, of the verdict and of the record as it stands
// behind the reference afterwards.
pub fn send(guest: &mut Guest, frame: &[u8], reply: &mut [u8]) -> Result<Verdict, Refusal>
    ensures { Meets
        (outcome guest.old frame.now (length reply.old))
        reply.old reply.new (record { verdict = result; guest = guest.new }) }
{
    let answer = handle(*guest, frame, reply);
    // No call changes the rest of a record. `*guest = answer.guest` was tried: a drop took 83 instructions,
    // not 60.
    guest.id = answer.guest.id;
    guest.xid = answer.guest.xid;
    answer.verdict
}

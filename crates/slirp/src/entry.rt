// The entry: one call for one frame.
ghost use Rattle.std.specs.Prelude.{length};
ghost use Rattle.record.specs.Answer.{Meets};
ghost use Rattle.rules.specs.Rules.{outcome};

use crate::replies::{handle_arp, handle_dhcp, handle_icmp};
use record::{Answer, Guest, Verdict};
use rules::{Decision, decide};

// What a frame of this guest gets, on the network of its record.
#[tactic(auto, unfolding(rules::specs::Rules::outcome, rules::specs::Rules::outcome_of, record::specs::Answer::paper))]
pub fn handle(guest: Guest, frame: &[u8], reply: &mut [u8]) -> Answer
    ensures { Meets
        (outcome guest frame.now (length reply.old))
        reply.old reply.new result }
{
    match decide(guest.network, frame) {
        Ok(Decision::Drop) => guest.answer(Ok(Verdict::Drop)),
        Ok(Decision::DropNoting(xid)) => guest.note(xid).answer(Ok(Verdict::Drop)),
        Ok(Decision::ArpReply) => handle_arp(guest, frame, reply),
        Ok(Decision::EchoReply { start }) => handle_icmp(guest, frame, start, reply),
        Ok(Decision::DhcpReply { xid, kind }) => handle_dhcp(guest, frame, xid, kind, reply),
        Ok(Decision::Dns { start, len }) => guest.answer(Ok(Verdict::Dns { start, len })),
        Ok(Decision::Relay { start, len }) => guest.answer(Ok(Verdict::Relay { start, len })),
        Ok(Decision::Tcp(len)) => guest.answer(Ok(Verdict::Tcp(len))),
        Err(refusal) => guest.answer(Err(refusal)),
    }
}

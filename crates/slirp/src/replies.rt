// The three replies: the room is asked for here, once for each, and the record changes here where it does.
// What a reply holds, and how it is written, is its own crate's.
ghost use Rattle.std.specs.Prelude.{◌+◌, ◌≤◌, length, drop};
ghost use Rattle.arp_reply.specs.Reply.{arp_reply_lem};
ghost use Rattle.dhcp_reply.specs.Reply.{dhcp_frame};
ghost use Rattle.echo_reply.specs.Reply.{echo_frame};
ghost use Rattle.record.specs.Answer.{Meets, framing};
ghost use Rattle.record.specs.Guest.{noting, spent};

use arp_reply::put_arp_reply;
use dhcp_reply::put_dhcp_reply;
use echo_reply::{MESSAGE_AT, put_echo_reply};
use record::{Answer, Guest, Refusal, Verdict};
use wire::bytes::bytes_at;
use wire::ethernet::eth_src;
use wire::ipv4::ip_src;
use wire::{arp, ethernet};

// Where an ARP request says who asks.
const SENDER_MAC: usize = ethernet::HEADER + arp::SENDER_MAC;

const SENDER_IP: usize = ethernet::HEADER + arp::SENDER_IP;

// To whom the request says has sent it.
#[tactic(auto, unfolding(record::specs::Answer::framing, record::specs::Answer::paper))]
pub fn handle_arp(guest: Guest, frame: &[u8], reply: &mut [u8]) -> Answer
    ensures { Meets
        (framing guest guest 42 (length reply.old) (arp_reply_lem guest.network frame.now))
        reply.old reply.new result }
{
    if reply.len() < arp_reply::FRAME {
        return guest.answer(Err(Refusal::NoRoom(arp_reply::FRAME)));
    }
    put_arp_reply(
        guest.network.gateway,
        bytes_at(frame, SENDER_MAC),
        bytes_at(frame, SENDER_IP),
        reply,
    );
    guest.answer(Ok(Verdict::Reply(arp_reply::FRAME)))
}

// The echo of what lies from `start` to the end of the frame.
#[tactic(auto, unfolding(record::specs::Answer::framing, record::specs::Answer::paper))]
pub fn handle_icmp(guest: Guest, frame: &[u8], start: usize, reply: &mut [u8]) -> Answer
    requires start_in_bounds { start + 4 ≤ length frame.now }
    requires frame_len_bound { length frame.now ≤ start + 65515 }
    ensures { Meets
        (framing guest (spent guest) (34 + length (drop start frame.now)) (length reply.old)
        (echo_frame guest frame.now start))
        reply.old reply.new result }
{
    let request = &frame[start..];
    let need = MESSAGE_AT + request.len();
    if reply.len() < need {
        return guest.answer(Err(Refusal::NoRoom(need)));
    }
    put_echo_reply(
        eth_src(frame),
        guest.id,
        guest.network.gateway,
        ip_src(frame),
        request,
        reply,
    );
    guest.spend().answer(Ok(Verdict::Reply(need)))
}

// A reply of type `kind` to the message whose xid is `xid`, in `frame`.
#[tactic(auto, unfolding(record::specs::Answer::framing, record::specs::Answer::paper))]
pub fn handle_dhcp(guest: Guest, frame: &[u8], xid: u32, kind: u8, reply: &mut [u8]) -> Answer
    ensures { Meets
        (framing guest (spent (noting xid guest)) 342 (length reply.old) (dhcp_frame guest frame.now xid kind))
        reply.old reply.new result }
{
    if reply.len() < dhcp_reply::FRAME {
        return guest.answer(Err(Refusal::NoRoom(dhcp_reply::FRAME)));
    }
    put_dhcp_reply(
        guest.network,
        guest.mac,
        guest.id,
        eth_src(frame),
        xid,
        kind,
        reply,
    );
    guest
        .note(xid)
        .spend()
        .answer(Ok(Verdict::Reply(dhcp_reply::FRAME)))
}

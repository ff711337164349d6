// The reply to a guest's message.
ghost use Rattle.std.specs.Prelude.{◌≡◌, length};
ghost use Rattle.record.specs.Answer.{Wrote, as_verdict};
ghost use Rattle.base.specs.Buffer.{put as Buffer·put, put_if_fits};
ghost use Rattle.dhcp_message.specs.Message.{answering, build_reply_lem, reply as Message·reply, some_answer};
ghost use Rattle.dhcp_message.specs.helpers.Pieces.{first_fields_lem, fixed_part, written, values as Pieces·values};
ghost use Rattle.options.specs.Rfc2132.{option};

use base::put;
use record::{Network, Refusal, within_room};
use wire::dhcp;

// Option codes.
const SERVER_ID: u8 = 54;

const LEASE_TIME: u8 = 51;

const SUBNET_MASK: u8 = 1;

const ROUTER: u8 = 3;

const NAME_SERVER: u8 = 6;

// Where each piece starts, and how long the reply is.
const ZEROS_AT: usize = 34;

const TYPE_AT: usize = dhcp::FIXED;

const SERVER_ID_AT: usize = 243;

const LEASE_TIME_AT: usize = 249;

const SUBNET_MASK_AT: usize = 255;

const ROUTER_AT: usize = 261;

const NAME_SERVER_AT: usize = 267;

const END_AT: usize = 273;

pub const REPLY_LENGTH: usize = 300;

// Message types.
const DISCOVER: u8 = 1;

const OFFER: u8 = 2;

const REQUEST: u8 = 3;

const ACK: u8 = 5;

// The type of the reply to a message of type `received`; None where it gets none. (A type stays a byte,
// for `build_reply` takes any: an enum would be made from one here and turned back into one there.)
pub fn reply_type(received: u8) -> Option<u8>
    ensures { result ≡ some_answer (answering received) }
{
    match received {
        DISCOVER => Some(OFFER),
        REQUEST => Some(ACK),
        _ => None,
    }
}

// A reply of type `kind` at the front of `out`. `mac` is the record's, not the request's.
// (README has this call with these parameters; a struct of the four would ask more of callers.)
pub fn build_reply(
    net: Network,
    mac: [u8; 6],
    xid: u32,
    kind: u8,
    out: &mut [u8],
) -> Result<usize, Refusal>
    ensures { Wrote (build_reply_lem net mac xid kind (length out.old)) out.old out.new (as_verdict result) }
{
    let need = within_room(out.len(), REPLY_LENGTH)?;
    put_reply(net, mac, xid, kind, out);
    Ok(need)
}

// The same, with nothing to say: where it does not fit, nothing is written. (It takes what `build_reply` does.)
pub fn put_reply(net: Network, mac: [u8; 6], xid: u32, kind: u8, out: &mut [u8])
    ensures { out.new ≡ put_if_fits 0 (Message·reply net mac xid kind) out.old }
{
    if let Some(reply) = out.first_chunk_mut() {
        write_reply_of(net, mac, xid, kind, reply);
    }
}

fn write_reply_of(net: Network, mac: [u8; 6], xid: u32, kind: u8, reply: &mut [u8; REPLY_LENGTH])
    ensures { reply.new ≡ Message·reply net mac xid kind }
{
    let fields = first_fields(net.guest, net.gateway, mac, xid);
    write_reply(fields, kind, option_values(net), reply);
}

// The rows: server identifier, lease time, subnet mask, router, name server. (Document 01 has them as rows by
// value.)
fn option_values(net: Network) -> [[u8; 4]; 5]
    ensures { result ≡ Pieces·values net }
{
    let gateway = net.gateway;
    let mask = net.mask;
    let lease = net.lease.to_be_bytes();
    [gateway, lease, mask, gateway, gateway]
}

// Each piece stands right behind the one before it: the fixed part, the message type, an option for
// each row of `values`, the end and its zeros.
fn write_reply(
    fields: [u8; ZEROS_AT],
    kind: u8,
    values: [[u8; 4]; 5],
    reply: &mut [u8; REPLY_LENGTH],
)
    ensures { reply.new ≡ written fields kind values }
{
    put_fixed_part(fields, reply);
    put(reply, TYPE_AT, &[dhcp::MESSAGE_TYPE, 1, kind]);
    put_row(reply, SERVER_ID_AT, SERVER_ID, values[0]);
    put_row(reply, LEASE_TIME_AT, LEASE_TIME, values[1]);
    put_row(reply, SUBNET_MASK_AT, SUBNET_MASK, values[2]);
    put_row(reply, ROUTER_AT, ROUTER, values[3]);
    put_row(reply, NAME_SERVER_AT, NAME_SERVER, values[4]);
    put(reply, END_AT, &[dhcp::END]);
    put(reply, END_AT + 1, &[0; REPLY_LENGTH - END_AT - 1]);
}

// The fields, zeros up to the cookie, and the cookie.
fn put_fixed_part(fields: [u8; ZEROS_AT], reply: &mut [u8; REPLY_LENGTH])
    ensures { reply.new ≡ Buffer·put 0 (fixed_part fields) reply.old }
{
    put(reply, 0, &fields);
    put(reply, ZEROS_AT, &[0; dhcp::COOKIE - ZEROS_AT]);
    put(reply, dhcp::COOKIE, &dhcp::MAGIC_COOKIE.to_be_bytes());
}

// One option of four bytes from `at` on. (A row's length stands here for the callers' proofs.)
fn put_row(out: &mut [u8], at: usize, code: u8, value: [u8; 4])
    ensures { (out.new ≡ put_if_fits at (option code value) out.old) × (length value ≡ 4) }
{
    put(out, at, &[code, 4, value[0], value[1], value[2], value[3]]);
}

// All fields up to the MAC. (Byte by byte, as `wire::udp::pseudo_header`.)
fn first_fields(guest: [u8; 4], gateway: [u8; 4], mac: [u8; 6], xid: u32) -> [u8; ZEROS_AT]
    ensures { result ≡ first_fields_lem guest gateway mac xid }
{
    let id = xid.to_be_bytes();
    [
        dhcp::BOOT_REPLY,
        dhcp::ETHERNET,
        dhcp::MAC_LENGTH,
        0,
        id[0],
        id[1],
        id[2],
        id[3],
        0,
        0,
        0,
        0,
        0,
        0,
        0,
        0,
        guest[0],
        guest[1],
        guest[2],
        guest[3],
        gateway[0],
        gateway[1],
        gateway[2],
        gateway[3],
        0,
        0,
        0,
        0,
        mac[0],
        mac[1],
        mac[2],
        mac[3],
        mac[4],
        mac[5],
    ]
}

// What a C host links: each exported call of `host` under its own name, with the clauses that it has there.
// `include/yavoledu.h` has the functions as C sees them. No function has a `requires`.
//
// So each call is written twice, here and in `host`: C's interface needs both. A static library exports what
// it defines itself (with `pub use host::yavoledu_send` alone it exports nothing), and no crate, as
// `host_laws`, can be built on a static library.
#![tactic(auto)]

ghost use Rattle.std.specs.Prelude.{length, ◌≡◌};
ghost use Rattle.datagrams.specs.Builders.{make_udp_payload_lem};
ghost use Rattle.host.specs.Exported.{MakesIpFrame, MakesTcpFrame, Sends, Told};
ghost use Rattle.host.specs.Parts.{Reported};
ghost use Rattle.host.specs.Reassembly.{Freed, Took};
ghost use Rattle.making.specs.Over.{MadeOver, lease_asked};
ghost use Rattle.sums.specs.Rfc1071.{checksum as Rfc1071·checksum};

use record::Guest;

#[unsafe(no_mangle)]
pub extern "C" fn yavoledu_make_guest(
    guest: &mut Guest,
    mac: &[u8; 6],
    gateway: &[u8; 4],
    guest_ip: &[u8; 4],
    mask: &[u8; 4],
    lease_named: u32,
    lease: u32,
) -> u32
    ensures { MadeOver guest.old «mac».now gateway.now guest_ip.now mask.now
        (lease_asked lease_named lease) result guest.new }
{
    host::yavoledu_make_guest(guest, mac, gateway, guest_ip, mask, lease_named, lease)
}

#[unsafe(no_mangle)]
pub extern "C" fn yavoledu_send(
    guest: &mut Guest,
    frame: &[u8],
    reply: &mut [u8],
    values: &mut [usize; 2],
) -> u32
    ensures { Sends guest.old frame.now
        reply.old reply.new result values.new guest.new }
{
    host::yavoledu_send(guest, frame, reply, values)
}

#[unsafe(no_mangle)]
pub extern "C" fn yavoledu_make_ip_frame(
    id: &mut u16,
    dst_mac: &[u8; 6],
    src_ip: &[u8; 4],
    dst_ip: &[u8; 4],
    proto: u8,
    payload: &[u8],
    out: &mut [u8],
    values: &mut [usize; 2],
) -> u32
    ensures { MakesIpFrame id.old
        dst_mac.now src_ip.now dst_ip.now proto payload.now
        out.old out.new result values.new id.new }
{
    host::yavoledu_make_ip_frame(id, dst_mac, src_ip, dst_ip, proto, payload, out, values)
}

#[unsafe(no_mangle)]
pub extern "C" fn yavoledu_make_udp_payload(
    src_ip: &[u8; 4],
    src_port: u16,
    dst_ip: &[u8; 4],
    dst_port: u16,
    data: &[u8],
    out: &mut [u8],
    values: &mut [usize; 2],
) -> u32
    ensures { Told
        (make_udp_payload_lem src_ip.now dst_ip.now src_port dst_port «data».now (length out.old))
        out.old out.new result values.new }
{
    host::yavoledu_make_udp_payload(src_ip, src_port, dst_ip, dst_port, data, out, values)
}

#[unsafe(no_mangle)]
pub extern "C" fn yavoledu_make_tcp_frame(
    id: &mut u16,
    dst_mac: &[u8; 6],
    src_ip: &[u8; 4],
    src_port: u16,
    dst_ip: &[u8; 4],
    dst_port: u16,
    seq: u32,
    ack: u32,
    flags: u8,
    data: &[u8],
    out: &mut [u8],
    values: &mut [usize; 2],
) -> u32
    ensures { MakesTcpFrame id.old
        (record { dst_mac = dst_mac.now; src_ip = src_ip.now; src_port = src_port; dst_ip = dst_ip.now; dst_port = dst_port })
        seq ack flags «data».now
        out.old out.new result values.new id.new }
{
    host::yavoledu_make_tcp_frame(
        id, dst_mac, src_ip, src_port, dst_ip, dst_port, seq, ack, flags, data, out, values,
    )
}

#[unsafe(no_mangle)]
pub extern "C" fn yavoledu_checksum(data: &[u8]) -> u16
    ensures { result ≡ Rfc1071·checksum «data».now }
{
    host::yavoledu_checksum(data)
}

#[unsafe(no_mangle)]
pub extern "C" fn yavoledu_read(frame: &[u8], parts: &mut [usize; 13]) -> u32
    ensures { Reported frame.now parts.old parts.new result }
{
    host::yavoledu_read(frame, parts)
}

#[unsafe(no_mangle)]
pub extern "C" fn yavoledu_take(
    state: &mut [u32; 6],
    frame: &[u8],
    bytes: &mut [u8],
    bits: &mut [u64],
    payload: &mut [usize; 2],
) -> u32
    ensures { Took state.old frame.now bytes.old bits.old
        state.new bytes.new bits.new payload.new result }
{
    host::yavoledu_take(state, frame, bytes, bits, payload)
}

#[unsafe(no_mangle)]
pub extern "C" fn yavoledu_release(state: &mut [u32; 6], bytes: &[u8], bits: &mut [u64]) -> u32
    ensures { Freed state.old bytes.now bits.old state.new bits.new result }
{
    host::yavoledu_release(state, bytes, bits)
}

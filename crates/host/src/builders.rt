// The three builders and the checksum, for C. A frame takes of the record the id alone, which is lent.
ghost use Rattle.std.specs.Prelude.{length, ◌≡◌, ◌∷◌};
ghost use Rattle.datagrams.specs.Builders.{make_udp_payload_lem};
ghost use Rattle.record.specs.Answer.{paper};
ghost use Rattle.host.specs.Exported.{MakesIpFrame, MakesTcpFrame, Told};
ghost use Rattle.verdict_numbers.specs.Numbers.{padded};
ghost use Rattle.sums.specs.Rfc1071.{checksum as Rfc1071·checksum};

use datagrams::make_udp_payload;
use frames::make_ip_frame;
use record::{Answer, Guest, Network, Verdict};
use sums::checksum;
use tcp::{Endpoints, make_tcp_frame};
use verdict_numbers::numbered;

#[unsafe(no_mangle)]
pub extern "C" fn yavoledu_make_ip_frame(
    id: &mut u16,
    dst_mac: &[u8; 6],
    src_ip: &[u8; 4],
    dst_ip: &[u8; 4],
    proto: u8,
    payload: &[u8],
    out: &mut [u8],
    values: &mut [usize; 2],
) -> u32
    ensures { MakesIpFrame id.old
        dst_mac.now src_ip.now dst_ip.now proto payload.now
        out.old out.new result values.new id.new }
{
    let answer = make_ip_frame(of_id(*id), *dst_mac, *src_ip, *dst_ip, proto, payload, out);
    stored(answer, id, values)
}

#[unsafe(no_mangle)]
pub extern "C" fn yavoledu_make_udp_payload(
    src_ip: &[u8; 4],
    src_port: u16,
    dst_ip: &[u8; 4],
    dst_port: u16,
    data: &[u8],
    out: &mut [u8],
    values: &mut [usize; 2],
) -> u32
    ensures { Told
        (make_udp_payload_lem src_ip.now dst_ip.now src_port dst_port «data».now (length out.old))
        out.old out.new result values.new }
{
    let written = make_udp_payload(*src_ip, src_port, *dst_ip, dst_port, data, out);
    numbered(written.map(Verdict::Reply), values)
}

#[unsafe(no_mangle)]
pub extern "C" fn yavoledu_make_tcp_frame(
    id: &mut u16,
    dst_mac: &[u8; 6],
    src_ip: &[u8; 4],
    src_port: u16,
    dst_ip: &[u8; 4],
    dst_port: u16,
    seq: u32,
    ack: u32,
    flags: u8,
    data: &[u8],
    out: &mut [u8],
    values: &mut [usize; 2],
) -> u32
    ensures { MakesTcpFrame id.old
        (record { dst_mac = dst_mac.now; src_ip = src_ip.now; src_port = src_port; dst_ip = dst_ip.now; dst_port = dst_port })
        seq ack flags «data».now
        out.old out.new result values.new id.new }
{
    let ends = Endpoints {
        dst_mac: *dst_mac,
        src_ip: *src_ip,
        src_port,
        dst_ip: *dst_ip,
        dst_port,
    };
    let answer = make_tcp_frame(of_id(*id), ends, seq, ack, flags, data, out);
    stored(answer, id, values)
}

#[unsafe(no_mangle)]
pub extern "C" fn yavoledu_checksum(data: &[u8]) -> u16
    ensures { result ≡ Rfc1071·checksum «data».now }
{
    checksum(data)
}

// Stores the id of the record that came back, and tells the verdict.
fn stored(answer: Answer, id: &mut u16, values: &mut [usize; 2]) -> u32
    ensures { (result ∷ values.new ≡ padded (paper answer.verdict)) × (id.new ≡ answer.guest.id) }
{
    *id = answer.guest.id;
    numbered(answer.verdict, values)
}

// Some record with this id: a builder looks at nothing else of it.
fn of_id(id: u16) -> Guest
    ensures { result.id ≡ id }
{
    let network = Network {
        gateway: [0; 4],
        guest: [0; 4],
        mask: [0; 4],
        lease: 0,
    };
    Guest::of([0; 6], id, 0, network)
}

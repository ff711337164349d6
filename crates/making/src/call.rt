// The call.
ghost use Rattle.making.specs.Making.{Makes};

use good_network::is_good;
use record::{Guest, Network};
use wire::bytes::u32be;

// The lease time, in seconds, of a record that is made without one.
const DEFAULT_LEASE: u32 = 86400;

// No record is made: the network is not good. Document 02's number of it is 9.
#[derive(Clone, Copy, Debug, PartialEq, Eq)]
pub struct BadRecord;

// A new guest's record, with id 1 and xid 0, where its network is good. Every MAC and every lease time is
// taken.
pub fn make(
    mac: [u8; 6],
    gateway: [u8; 4],
    guest: [u8; 4],
    mask: [u8; 4],
    lease: Option<u32>,
) -> Result<Guest, BadRecord>
    ensures { Makes mac gateway guest mask lease result }
{
    if !is_good(u32be(&gateway, 0), u32be(&guest, 0), u32be(&mask, 0)) {
        return Err(BadRecord);
    }
    let network = Network {
        gateway,
        guest,
        mask,
        lease: lease.unwrap_or(DEFAULT_LEASE),
    };
    Ok(Guest::of(mac, 1, 0, network))
}

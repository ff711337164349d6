// The call that makes a record, for C.
ghost use Rattle.making.specs.Over.{MadeOver, lease_asked};

use making::{BadRecord, make_over};
use record::Guest;

// Numbers of ours stand past all of document 02's.
const MADE: u32 = 24;

const BAD_RECORD: u32 = 9;

// A new guest's record in the memory lent, whatever it held: 24; or 9, and the memory is left as it was. (C has
// no Option and no Result: a lease time is named by a number beside it, and the answer is a number.)
#[unsafe(no_mangle)]
pub extern "C" fn yavoledu_make_guest(
    guest: &mut Guest,
    mac: &[u8; 6],
    gateway: &[u8; 4],
    guest_ip: &[u8; 4],
    mask: &[u8; 4],
    lease_named: u32,
    lease: u32,
) -> u32
    ensures { MadeOver guest.old «mac».now gateway.now guest_ip.now mask.now
        (lease_asked lease_named lease) result guest.new }
{
    let lease = (lease_named != 0).then_some(lease);
    match make_over(guest, *mac, *gateway, *guest_ip, *mask, lease) {
        Ok(()) => MADE,
        Err(BadRecord) => BAD_RECORD,
    }
}

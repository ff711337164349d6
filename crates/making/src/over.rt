// The same over a record that stands already, as in memory that C lends.
ghost use Rattle.making.specs.Making.{number_of};
ghost use Rattle.making.specs.Over.{MadeOver};

use crate::call::{BadRecord, make};
use record::Guest;

// A new guest's record in place of `guest`, which is left as it was where none is made.
pub fn make_over(
    guest: &mut Guest,
    mac: [u8; 6],
    gateway: [u8; 4],
    guest_ip: [u8; 4],
    mask: [u8; 4],
    lease: Option<u32>,
) -> Result<(), BadRecord>
    ensures { MadeOver guest.old mac gateway guest_ip mask lease (number_of result) guest.new }
{
    *guest = make(mac, gateway, guest_ip, mask, lease)?;
    Ok(())
}

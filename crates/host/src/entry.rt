// The entry for C.
ghost use Rattle.host.specs.Exported.{Sends};

use lent_record::send;
use record::Guest;
use verdict_numbers::numbered;

// What a frame of this guest gets, as `send` answers it, its verdict told as a number and two values.
#[unsafe(no_mangle)]
pub extern "C" fn yavoledu_send(
    guest: &mut Guest,
    frame: &[u8],
    reply: &mut [u8],
    values: &mut [usize; 2],
) -> u32
    ensures { Sends guest.old frame.now
        reply.old reply.new result values.new guest.new }
{
    numbered(send(guest, frame, reply), values)
}

// One line of steps: the store, full of rubbish, is released, and each step is a call. A step is
// CALL(2) ANSWER(1) PAYLOAD(2). The low 13 bits of CALL are the frame's number, or NONE for a release;
// the high three say at which size the store is lent. PAYLOAD is the number of the payload that is to be
// handed out, or NONE for an empty one.
use crate::calls::{Call, RELEASED, Store};
use crate::rows;
use crate::train::Train;
use fragments::{Datagram, State};
use vectors::Tally;
use wire::bytes::{byte_at, u16be};

// The tally with the calls, and whether all agreed.
#[derive(Clone, Copy)]
pub struct Replay {
    pub tally: Tally,
    pub agrees: bool,
}

// The number that a step has for no frame or no payload: it is read into an Option at once.
const NONE: u16 = 0x1fff;

const NUMBERS: u16 = 0x2000;

const STEP_SIZE: usize = 5;

// None where a step can't be read. The release before the first step is none itself, and has to empty
// the store all the same.
pub fn replayed(
    tally: Tally,
    line: &[u8],
    train: &Train<'_>,
    store: &mut Store<'_>,
) -> Option<Replay> {
    let mut replay = Replay {
        tally,
        agrees: store.call(Call {
            frame: None,
            lent: 0,
            answer: RELEASED,
            payload: b"",
        }),
    };
    for step in vectors::rest(line, 1).chunks(STEP_SIZE) {
        let call = read_step(step, train)?;
        let agrees = store.call(call);
        if let Some(row) = rows::row_of(call.answer) {
            replay.tally = replay.tally.counted(row, agrees);
        }
        replay.agrees &= agrees;
    }
    Some(replay)
}

fn read_step<'a>(step: &[u8], train: &'a Train<'_>) -> Option<Call<'a>> {
    if step.len() != STEP_SIZE {
        return None;
    }
    let call = u16be(step, 0);
    let frame = match call % NUMBERS {
        NONE => None,
        number => Some(train.item(usize::from(number))?),
    };
    let payload = match u16be(step, 3) {
        NONE => b"",
        number => train.item(usize::from(number))?,
    };
    Some(Call {
        frame,
        lent: call / NUMBERS,
        answer: byte_at(step, 2),
        payload,
    })
}

// What no call of ours has left.
pub fn rubbish() -> State {
    State::Complete {
        datagram: Datagram {
            source: 0xa5a5_a5a5,
            target: 0xa5a5_a5a5,
            protocol: 0xa5,
            id: 0xa5a5,
        },
        length: 65535,
    }
}

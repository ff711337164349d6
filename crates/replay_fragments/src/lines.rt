// A line: what it is in one byte, and behind that
//   00 ORIGIN    a new train: what was listed before is forgotten
//   01 PIECES    a frame
//   02 PIECES    a payload; frames and payloads are numbered together, from 0
//   03 STEPS     a replay, of frames and payloads that stand before it
//   83 STEPS     a replay that is spoiled on purpose: it is right to find it wrong
use crate::calls::Store;
use crate::train::Train;
use crate::{replays, rows};
use vectors::{Judge, Tally};
use wire::bytes::byte_at;

// The count so far, and the train that is listed.
#[derive(Drop)]
pub struct Run<'a> {
    pub tally: Tally,
    origin: u8,
    train: Train<'a>,
}

// What a line is. (As numbers: a line has it as a byte. A closure
// for each would be picked by the same match.)
const TRAIN: u8 = 0;

const FRAME: u8 = 1;

const PAYLOAD: u8 = 2;

const REPLAY: u8 = 3;

const SPOILED: u8 = 0x83;

const ORIGINS: u8 = 4;

// A store's 65,515 bytes and one more: some steps lend it too large.
const STORE_BYTES: usize = 65516;

// Its 128 words, and one more for the same reason.
const STORE_WORDS: usize = 129;

const RUBBISH: u64 = 0xa5a5_a5a5_a5a5_a5a5;

impl Judge for Run<'_> {
    // One more line, where it could be decoded. A blank line or a comment changes nothing.
    fn take(&mut self, line: Option<&[u8]>) {
        let understood = match line {
            Some(line) => self.understand(line),
            None => None,
        };
        if understood.is_none() {
            self.tally = self.tally.counted(rows::UNREAD, false);
        }
    }
}

impl<'a> Run<'a> {
    pub fn new(pool: &'a mut [u8], ends: &'a mut [usize]) -> Run<'a> {
        Run {
            tally: Tally::new(),
            origin: 0,
            train: Train::new(pool, ends),
        }
    }

    fn understand(&mut self, line: &[u8]) -> Option<()> {
        if line.is_empty() {
            return Some(());
        }
        match line[0] {
            TRAIN => self.start(line),
            FRAME | PAYLOAD => self.train.add(line),
            REPLAY | SPOILED => self.replay(line),
            _ => None,
        }
    }

    fn start(&mut self, line: &[u8]) -> Option<()> {
        let origin = byte_at(line, 1);
        if line.len() != 2 || origin == 0 || ORIGINS < origin {
            return None;
        }
        self.origin = origin;
        self.train.clear();
        Some(())
    }

    // The calls of a spoiled replay are not counted. (A call of its own: as a part of `take` its room would be
    // entered for each line, blank ones too.)
    #[inline(never)]
    fn replay(&mut self, line: &[u8]) -> Option<()> {
        let mut space: [u8; 70400] = vectors::filled(vectors::MARK);
        let mut store = Store {
            state: replays::rubbish(),
            bytes: vectors::front(&mut space, STORE_BYTES),
            bits: [RUBBISH; STORE_WORDS],
        };
        let replay = replays::replayed(self.tally, line, &self.train, &mut store)?;
        if self.origin == 0 {
            return None;
        }
        self.tally = if byte_at(line, 0) == SPOILED {
            self.tally.counted(rows::SPOILED, !replay.agrees)
        } else {
            let row = rows::ORIGINS + usize::from(self.origin);
            replay.tally.counted(row, replay.agrees)
        };
        Some(())
    }
}

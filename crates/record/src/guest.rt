// One guest's record, and all that makes or changes one.
ghost use Rattle.std.specs.Prelude.{◌≡◌};
ghost use Rattle.record.specs.Answer.{built_of};
ghost use Rattle.record.specs.Guest.{known, noting, spent};

use crate::answer::{Answer, Refusal, Verdict};
use crate::network::Network;

// Its MAC, the id of the next IPv4 frame built for it, its last DHCP xid, and its network, which no call
// changes. `host` lends it to C, so its layout is C's.
#[repr(C)]
#[derive(Clone, Copy, PartialEq, Eq)]
pub struct Guest {
    pub mac: [u8; 6],
    pub id: u16,
    pub xid: u32,
    pub network: Network,
}

impl Guest {
    // One of which all is known. A new guest's is made by `making::make`, which looks at its network.
    pub fn of(mac: [u8; 6], id: u16, xid: u32, network: Network) -> Guest
        ensures { result ≡ known mac id xid network }
    {
        Guest {
            mac,
            id,
            xid,
            network,
        }
    }

    // Its id stands in a frame: the next one is greater by 1, and 65,535 goes to 0.
    pub fn spend(self) -> Guest
        ensures { result ≡ spent self }
    {
        Guest {
            id: self.id.wrapping_add(1),
            ..self
        }
    }

    // It has a message with this xid.
    pub fn note(self, xid: u32) -> Guest
        ensures { result ≡ noting xid self }
    {
        Guest { xid, ..self }
    }

    // The answer that leaves this record.
    pub fn answer(self, verdict: Result<Verdict, Refusal>) -> Answer
        ensures { result ≡ record { verdict = verdict; guest = self } }
    {
        Answer {
            verdict,
            guest: self,
        }
    }

    // The answer of a call that puts its id into what it writes: once that stands there, the id is spent.
    pub fn built(self, written: Result<usize, Refusal>) -> Answer
        ensures { result ≡ built_of self written }
    {
        match written {
            Ok(n) => self.spend().answer(Ok(Verdict::Reply(n))),
            Err(refusal) => self.answer(Err(refusal)),
        }
    }
}

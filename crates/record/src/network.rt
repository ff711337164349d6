// The network of a guest.
ghost use Rattle.std.specs.Prelude.{◌≡◌};
ghost use Rattle.record.specs.Network.{broadcast_of};

// The gateway's address and the guest's, their mask, and the lease time in seconds. A record holds one, and
// `host` lends that to C, so its layout is C's.
#[repr(C)]
#[derive(Clone, Copy, PartialEq, Eq)]
pub struct Network {
    pub gateway: [u8; 4],
    pub guest: [u8; 4],
    pub mask: [u8; 4],
    pub lease: u32,
}

pub const GATEWAY_MAC: [u8; 6] = [0x52, 0x54, 0x00, 0x00, 0x00, 0x01];

impl Network {
    // The guest's address with every host bit set.
    pub fn broadcast(self) -> [u8; 4]
        ensures { result ≡ broadcast_of self }
    {
        let guest = u32::from_be_bytes(self.guest);
        let mask = u32::from_be_bytes(self.mask);
        (guest | !mask).to_be_bytes()
    }
}

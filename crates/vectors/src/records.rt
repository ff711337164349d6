// The network of lines that name none.
ghost use Rattle.std.specs.Prelude.{◌≡◌};
ghost use Rattle.record.specs.Network.{document01};

use record::Network;

const NETWORK: Network = Network {
    gateway: [10, 0, 2, 2],
    guest: [10, 0, 2, 15],
    mask: [255, 255, 255, 0],
    lease: 86400,
};

// Document 01's network, its lease time named.
pub fn network() -> Network
    ensures { result ≡ document01 }
{
    NETWORK
}

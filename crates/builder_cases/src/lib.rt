// Lines that call what lies below the gateway: the checksum, the builders, the option walk, DHCP's
// reply. Each has a kind, the call's arguments and the answer that others gave.
#![tactic(auto)]

mod answers;
mod builders;
mod cases;
mod checksums;
mod messages;
mod whole_frames;

pub use cases::{Case, judge};

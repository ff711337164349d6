// What a host calls: the record made, the gateway with its record lent, the three builders, the checksum, the strict reader and reassembly.
// `host_c` exports these functions to C, and `include/yavoledu.h` has them as C sees them. No function has a `requires`.
#![tactic(auto)]

mod builders;
mod entry;
mod maker;
mod reading;
mod reassembly;

pub use builders::{
    yavoledu_checksum, yavoledu_make_ip_frame, yavoledu_make_tcp_frame, yavoledu_make_udp_payload,
};
pub use entry::yavoledu_send;
pub use lent_record::send;
pub use maker::yavoledu_make_guest;
pub use reading::yavoledu_read;
pub use reassembly::{yavoledu_release, yavoledu_take};

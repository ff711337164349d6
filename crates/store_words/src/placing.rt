// Where a payload stands, by looking at what was answered: the frame isn't tested again.
ghost use Rattle.std.specs.Prelude.{[], ◌∷◌, ◌≡◌, ◌+◌};
ghost use Rattle.wire.specs.Rfc791.{header_length_lem};
ghost use Rattle.wire.specs.Rfc894.{body};
ghost use Rattle.fragment_packets.specs.Packets.{payload_length};
ghost use Rattle.store_words.specs.Reports.{place_of};

use fragments::{Site, Taken, site_of, stored_length};
use wire::bytes::u16be;
use wire::{ethernet, ipv4};

const TOTAL_LENGTH: usize = ethernet::HEADER + ipv4::TOTAL_LENGTH;

// The start and the length, in `frame` on passed and in the `lent` bytes of the store on complete; for every
// other answer 0 and 0, as C has them.
#[tactic(auto, unfolding(crate::specs::Reports::place_at))]
pub fn place(taken: Taken, frame: &[u8], lent: usize) -> [usize; 2]
    ensures { result ≡ place_of taken.answer taken.state frame.now lent }
{
    match site_of(taken.answer) {
        Some(Site::Frame) => in_frame(frame),
        Some(Site::Store) => [0, stored_length(taken.state, lent)],
        None => [0, 0],
    }
}

// A total length below the header's leaves nothing.
#[tactic(auto, unfolding(fragment_packets::specs::Packets::payload_length))]
fn in_frame(frame: &[u8]) -> [usize; 2]
    ensures { result ≡ (14 + header_length_lem (body frame.now)) ∷ payload_length (body frame.now) ∷ [] }
{
    let header = ipv4::ip_hlen(frame);
    let start = ethernet::HEADER + header;
    let total = usize::from(u16be(frame, TOTAL_LENGTH));
    [start, total.saturating_sub(header)]
}

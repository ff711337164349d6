// The options of a guest's DHCP message, of any length: the walk over them to its message type. No
// public function relies on checks by its caller.
#![tactic(auto)]

ghost use Rattle.std.specs.Prelude.{ℕ, ◌≡◌};
ghost use Rattle.options.specs.Found.{walked_as, walked_or};
ghost use Rattle.options.specs.Rfc2132.{walk, walk_or};

use wire::dhcp::{END, FIXED, MESSAGE_TYPE, PAD};

// The place of an option 53 whose value is cut off.
#[derive(Clone, Copy, PartialEq, Eq)]
pub struct CutAt(pub usize);

// The type of the message `data`, which may end anywhere; None where the walk over its options ends
// without one.
pub fn message_type(data: &[u8]) -> Result<Option<u8>, CutAt>
    ensures walked { walked_as result ≡ walk «data».now }
    ensures determined { (none : ℕ) → walked_or none result ≡ walk_or none «data».now }
{
    let mut at = FIXED;
    // Document 01's form for this place: a labelled loop.
    'scan: loop {
        if data.len() <= at {
            break 'scan Ok(None);
        }
        let code = data[at];
        if code == END {
            break 'scan Ok(None);
        }
        if code == PAD {
            at += 1;
            continue 'scan;
        }
        if data.len() <= at + 1 {
            break 'scan Ok(None);
        }
        let len = usize::from(data[at + 1]);
        let next = at + (2 + len);
        if code == MESSAGE_TYPE && 1 <= len {
            if data.len() <= at + 2 {
                break 'scan Err(CutAt(at));
            }
            break 'scan Ok(Some(data[at + 2]));
        }
        at = next;
    }
}

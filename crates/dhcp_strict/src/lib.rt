// A DHCP message, read strictly: RFC 2131, and its list of options, RFC 2132. The list reader calls the
// item reader, which calls the list reader on what remains: at most 1,232 bytes, so the calls are at most
// 2,465 deep.
#![tactic(auto)]

ghost use Rattle.std.specs.Prelude.{◌≡◌, ◌+◌, ◌≤◌, ◌<◌, length, if◌then◌else◌};
ghost use Rattle.base.specs.Bytes.{u8_at};
ghost use Rattle.grammar.specs.Grammar.{DHCPHeader};
ghost use Rattle.dhcp_strict.specs.MessageRead.{MessageRead};
ghost use Rattle.dhcp_strict.specs.helpers.AllZero.{AllZero};
ghost use Rattle.dhcp_strict.specs.helpers.Listed.{Listed};
ghost use Rattle.base.specs.Tells.{Tells};

use wire::bytes::{byte_at, u32be};
use wire::dhcp::{
    BOOT_REPLY, BOOT_REQUEST, COOKIE, END, ETHERNET, FIXED, HARDWARE, HARDWARE_LENGTH, LAST_TYPE,
    MAC_LENGTH, MAGIC_COOKIE, MESSAGE_TYPE, OPERATION, PAD,
};

// Document 01's limit: a message fills at most a packet of 1,500 bytes.
const LONGEST: usize = 1472;

// The type of the message that starts at `at` and runs to the end of the frame.
pub fn read_message(frame: &[u8], at: usize) -> Option<u8>
    ensures { MessageRead frame.now at result }
{
    let message = frame.get(at..)?;
    if !has_header(message) {
        return None;
    }
    let mut message_type = None;
    if !read_list(frame, at + FIXED, &mut message_type) {
        return None;
    }
    message_type
}

// Whether what stands before the list is right, and the length of the whole message.
fn has_header(message: &[u8]) -> bool
    ensures { Tells result (DHCPHeader message.now) }
{
    let len = message.len();
    if len < FIXED {
        return false;
    }
    if LONGEST < len {
        return false;
    }
    let operation = byte_at(message, OPERATION);
    if operation < BOOT_REQUEST {
        return false;
    }
    if BOOT_REPLY < operation {
        return false;
    }
    if byte_at(message, HARDWARE) != ETHERNET {
        return false;
    }
    if byte_at(message, HARDWARE_LENGTH) != MAC_LENGTH {
        return false;
    }
    u32be(message, COOKIE) == MAGIC_COOKIE
}

// Whether a list runs from `at` to the end of the frame, in which an option 53 is the only one: `seen` is
// what one before it said, and then what one in it says. Tried and slower: an Option handed back by value
// keeps the calls from being compiled into a loop (1,229 items in 9.2 µs, and here in 0.4).
#[cycle(read_item_read_list)]
fn read_list(frame: &[u8], at: usize, seen: &mut Option<u8>) -> bool
    requires { length frame.now ≤ at + 1232 }
    ensures { Listed frame.now at seen.old (if result then seen.new else None) }
{
    if frame.len() <= at {
        return false;
    }
    if frame[at] != END {
        return read_item(frame, at, seen);
    }
    zeros(&frame[at + 1..])
}

// The same where the list starts with an item.
#[cycle(read_item_read_list)]
fn read_item(frame: &[u8], at: usize, seen: &mut Option<u8>) -> bool
    requires inside { at < length frame.now }
    requires within_frame { length frame.now ≤ at + 1232 }
    requires not_end { u8_at frame.now at ≡ 255 → ⊥ }
    ensures { Listed frame.now at seen.old (if result then seen.new else None) }
{
    let code = frame[at];
    if code == PAD {
        return read_list(frame, at + 1, seen);
    }
    let left = frame.len() - at;
    if left < 2 {
        return false;
    }
    let len = usize::from(frame[at + 1]);
    if left - 2 < len {
        return false;
    }
    if code != MESSAGE_TYPE {
        return read_list(frame, at + 2 + len, seen);
    }
    if seen.is_some() {
        return false;
    }
    if len != 1 {
        return false;
    }
    let value = frame[at + 2];
    if value == 0 {
        return false;
    }
    if LAST_TYPE < value {
        return false;
    }
    *seen = Some(value);
    read_list(frame, at + 3, seen)
}

fn zeros(bytes: &[u8]) -> bool
    ensures { Tells result (AllZero bytes.now) }
{
    bytes.iter().all(|byte| *byte == 0)
}

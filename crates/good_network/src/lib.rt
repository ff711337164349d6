// Whether a network is good, test by test. Nothing relies on checks by its caller.
#![tactic(auto)]

ghost use Rattle.base.specs.Tells.{Tells};
ghost use Rattle.good_network.specs.Good.{Good, Between};

// "from 8 to 30"
const SHORTEST_PREFIX: u32 = 8;

const LONGEST_PREFIX: u32 = 30;

// The mask is ones followed by zeros where it has as many ones as leading ones; they are its prefix.
pub fn is_good(gateway: u32, guest: u32, mask: u32) -> bool
    ensures { Tells result (Good gateway guest mask) }
{
    let prefix = u32::count_ones(mask);
    if prefix != u32::leading_zeros(!mask) {
        return false;
    }
    if prefix < SHORTEST_PREFIX {
        return false;
    }
    if LONGEST_PREFIX < prefix {
        return false;
    }
    if gateway == guest {
        return false;
    }
    if gateway & mask != guest & mask {
        return false;
    }
    if !is_between(gateway & !mask, !mask) {
        return false;
    }
    is_between(guest & !mask, !mask)
}

// Whether a place in a network is neither its lowest nor its highest.
fn is_between(place: u32, highest: u32) -> bool
    ensures { Tells result (Between place highest) }
{
    place != 0 && place != highest
}

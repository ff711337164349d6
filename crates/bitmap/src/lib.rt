// The bitmap of a store: one bit for each block of eight bytes, 64 blocks to a word, the lowest bit
// first. Bitmaps of any length are taken: a block that the words do not reach is not there. A run of
// blocks is gone through word by word, so it costs by its words and not by its blocks.
#![tactic(auto)]

ghost use Rattle.std.specs.Prelude.{◌≡◌, ◌+◌, ◌-◌, ◌*◌, ◌^◌, ◌≤◌, ◌<◌, leb, length, get_or, replicate};
ghost use Rattle.std.specs.Int.Count.{ones_in};
ghost use Rattle.bitmap.specs.Bitmap.{bit, blocks_of_lem, Marked, count as Bitmap·count};

pub const BLOCK: usize = 8;

// How many blocks of eight bytes the first `n` bytes touch.
#[tactic(auto, unfolding(crate::specs::Bitmap::blocks_of_lem))]
pub fn blocks_of(n: u32) -> usize
    ensures { result ≡ blocks_of_lem n }
{
    (n as usize).div_ceil(BLOCK)
}

// How many of the blocks from `first` up to `stop` are there. It takes a turn for each word's worth of
// blocks, also behind the last word. (A `for` over the words would be no plainer: the first and the last of
// them have fewer blocks, so each turn would have to work out from where and up to where.)
pub fn count(bits: &[u64], first: usize, stop: usize) -> usize
    ensures { result ≡ Bitmap·count (bit bits.now) first (stop - first) }
{
    let mut found: usize = 0;
    let mut at = first;
    while at < stop {
        let low = at % 64;
        let n = within(low, stop - at);
        found += ones(word_at(bits, at / 64) >> low, n);
        at += n;
    }
    found
}

// Marks the blocks from `first` up to `stop`; where the words do not reach them all, none. (A `while` as in
// `count`.)
pub fn mark(bits: &mut [u64], first: usize, stop: usize)
    ensures { Marked first stop bits.old bits.new }
{
    if !reaches(bits.len(), stop) {
        return;
    }
    let mut at = first;
    while at < stop {
        let low = at % 64;
        let n = within(low, stop - at);
        let word = at / 64;
        bits[word] |= lowest(n) << low;
        at += n;
    }
}

// Takes every mark away.
pub fn clear(bits: &mut [u64])
    ensures { bits.new ≡ replicate (length bits.old) 0 }
{
    bits.fill(0);
}

// Whether the blocks before `stop` all have a bit in so many words.
fn reaches(len: usize, stop: usize) -> bool
    ensures { result ≡ leb stop (len * 64) }
{
    stop == 0 || (stop - 1) / 64 < len
}

// How many of `left` blocks lie in one word, where the first is its bit `low`: where there are more, all that
// the word has room for.
fn within(low: usize, left: usize) -> usize
    requires { (low < 64) × (0 < left) }
    ensures { (0 < result) × (low + result ≤ 64) × (result ≤ left) × (result < left → low + result ≡ 64) }
{
    left.min(64 - low)
}

// How many of the `n` lowest bits of `word` are set.
fn ones(word: u64, n: usize) -> usize
    requires { (0 < n) × (n ≤ 64) }
    ensures { (result ≡ ones_in n word) × (result ≤ n) }
{
    (word & lowest(n)).count_ones() as usize
}

// The word whose `n` lowest bits are set, and no other.
fn lowest(n: usize) -> u64
    requires { (0 < n) × (n ≤ 64) }
    ensures { result ≡ 2 ^ n - 1 }
{
    u64::MAX >> (64 - n)
}

// The word at `i`; 0 past the end.
fn word_at(bits: &[u64], i: usize) -> u64
    ensures { result ≡ get_or bits.now i 0 }
{
    bits.get(i).copied().unwrap_or(0)
}

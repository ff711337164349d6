// How many cases of each row agreed and how many did not.
ghost use Rattle.std.specs.Prelude.{◌≡◌};
ghost use Rattle.vectors.specs.Count.{empty, counted_in};

use std::io;

const ROWS: usize = 32;

// (Two lists, as `empty` and `counted_in` in specs/ have them.)
#[derive(Clone, Copy)]
pub struct Tally {
    pub right: [u64; 32],
    pub wrong: [u64; 32],
}

impl Tally {
    pub fn new() -> Tally
        ensures { result ≡ empty }
    {
        Tally {
            right: [0; 32],
            wrong: [0; 32],
        }
    }

    // Past the last row nothing is counted.
    #[tactic(auto, unfolding(crate::specs::Count::counted_in, crate::specs::Count::one_more_lem))]
    pub fn counted(mut self, row: usize, agrees: bool) -> Tally
        ensures { result ≡ counted_in self row agrees }
    {
        if ROWS <= row {
            return self;
        }
        if agrees {
            self.right[row] = self.right[row].wrapping_add(1);
        } else {
            self.wrong[row] = self.wrong[row].wrapping_add(1);
        }
        self
    }
}

// Prints each row that has a case, and the sum of the first `once` rows: those behind them count
// cases once more. `names` has a line for each row. A write that fails ends it.
pub fn print<R: Print>(rt: &R, tally: Tally, names: &[u8], once: usize) -> io::Result<()> {
    let counts = tally.right.iter().zip(tally.wrong.iter());
    for (name, (right, wrong)) in names.split(|byte| *byte == b'\n').zip(counts) {
        print_row(rt, name, *right, *wrong)?;
    }
    print_counts(rt, total(tally.right, once), total(tally.wrong, once))
}

fn total(counts: [u64; 32], once: usize) -> u64 {
    let mut sum: u64 = 0;
    for count in counts.iter().take(once) {
        sum = sum.wrapping_add(*count);
    }
    sum
}

fn print_row<R: Print>(rt: &R, name: &[u8], right: u64, wrong: u64) -> io::Result<()> {
    if right == 0 && wrong == 0 {
        return Ok(());
    }
    rt.write_all(name)?;
    rt.write_all(b": ")?;
    print_counts(rt, right, wrong)
}

fn print_counts<R: Print>(rt: &R, right: u64, wrong: u64) -> io::Result<()> {
    println!(rt; "{right} agree, {wrong} do not")
}

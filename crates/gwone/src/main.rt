// One frame from standard input: what the gateway answers to it, as text.
#![tactic(auto)]

mod answer;
mod text;

use input::read_full;
use std::io;
use text::Text;

fn main(rt: HostRuntime) -> io::Result<()> {
    // The longest frame that is taken, and a byte more.
    let mut input = [0; 2049];
    let n = read_full(&mut rt.reader(), &mut input)?;
    let mut text = Text::new();
    answer::printed(&input[..n], &mut text);
    rt.write_all(text.as_bytes())
}

// The loop that every replay has: each line of a text, and what is done with it.
use crate::lines::decode;
use crate::slices::part;

// What is done with lines, one after the other.
pub trait Judge {
    // The next line's bytes; None where it is not whole.
    fn take(&mut self, line: Option<&[u8]>);
}

// Hands on each line of `text`, which is read into `space`. (Where the next line starts is told by `decode`:
// a `for`, which takes one step a turn, would be no plainer.)
pub fn replay<J: Judge>(text: &[u8], space: &mut [u8], judge: &mut J) {
    let mut at = 0;
    while at < text.len() {
        let line = decode(text, at, space);
        at = line.next;
        match line.len {
            Some(len) => judge.take(Some(part(space, 0, len))),
            None => judge.take(None),
        }
    }
}

// What a call on a store answers, and where the payload lies.
use fragment_rules::{Answer, Refusal, State};

// What a call that may change the store answers: the state comes back beside the answer, on a refusal
// too.
#[derive(Clone, Copy, PartialEq, Eq)]
pub struct Taken {
    pub answer: Result<Answer, Refusal>,
    pub state: State,
}

// Where the payload lies that an answer hands out.
#[derive(Clone, Copy, PartialEq, Eq)]
pub enum Site {
    Frame,
    Store,
}

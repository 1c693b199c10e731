// A state of the decision: the mask of the events that are placed, and that of the others that would return their stated value
// from memory.
#![tactic(auto)]

#[derive(Clone, Copy)]
pub struct State {
    pub placed: u32,
    pub good: u32,
}

/// A refusal, with what was given for the call, as it was given.
#[derive(PartialEq, Eq, Debug, Drop)]
pub struct Refused<F, T> {
    /// Why it was refused.
    pub fault: F,
    /// What was given.
    pub given: T,
}

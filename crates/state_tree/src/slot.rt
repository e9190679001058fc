/// A state that was made, and whether it is live. A state that isn't live stays made.
#[derive(Drop)]
pub struct Slot<S> {
    pub state: S,
    pub live: bool,
}

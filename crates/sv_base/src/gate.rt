/// Where the threads of a run can be held: a run calls it at each step of a writer and at each turn
/// of its host. A test can so fix in which order they go on.
pub trait Gate: Sync {
    /// Called by the thread of this writer, before it waits for the recorder.
    fn before_step(&self, writer: u32);

    /// Called by the host before each of its reads, with the number of its turn: 1 at first, and it
    /// stays at 2^64 - 1.
    fn before_read(&self, turn: u64);
}

/// A gate that holds nobody.
#[derive(Clone, Copy, Debug)]
pub struct OpenGate;

impl Gate for OpenGate {
    fn before_step(&self, _writer: u32) {}

    fn before_read(&self, _turn: u64) {}
}

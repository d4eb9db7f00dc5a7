/// What runs, with the number that its packets carry.
#[derive(Clone, Copy, Debug, PartialEq, Eq, PartialOrd, Ord, Hash)]
pub enum Context {
    /// Nothing is known: packets were lost, or the recorder was off.
    Gap,
    /// No event has told yet.
    Unknown,
    /// The scheduler.
    Scheduler,
    /// Nothing is left to run.
    Idle,
    /// The task of this shrunk identifier.
    Task(u32),
    /// The software timer of this shrunk identifier.
    Timer(u32),
    /// The interrupt of this number.
    Isr(u32),
}

//! What single events do to the context.
ghost use Rattle.sv_packet.specs.EventRef.{seen};
ghost use Rattle.sv_context.specs.Change.{Says};

use crate::context::Context;
use sv_packet::EventRef;

/// What an event does to the context.
#[derive(Clone, Copy, Debug, PartialEq, Eq)]
pub enum Change {
    /// All frames close, and the base is forgotten.
    Break,
    /// All frames close, and this runs.
    Base(Context),
    /// A frame opens.
    Enter(Context),
    /// The innermost open frame closes.
    Exit,
    /// None of these.
    Nothing,
}

/// What the event does to the context.
#[inline(always)]
pub fn change_of(event: &EventRef<'_>) -> Change
    ensures { Says result (seen event.now) }
{
    match event {
        EventRef::Overflow { .. } => Change::Break,
        EventRef::TraceStart => Change::Break,
        EventRef::TraceStop => Change::Break,
        EventRef::TaskStart { task } => Change::Base(Context::Task(*task)),
        EventRef::TaskStop => Change::Base(Context::Scheduler),
        EventRef::Idle => Change::Base(Context::Idle),
        EventRef::ToScheduler => Change::Base(Context::Scheduler),
        EventRef::IsrEnter { isr } => Change::Enter(Context::Isr(*isr)),
        EventRef::TimerEnter { timer } => Change::Enter(Context::Timer(*timer)),
        EventRef::IsrExit => Change::Exit,
        EventRef::TimerExit => Change::Exit,
        EventRef::Nop => Change::Nothing,
        EventRef::TaskReady { .. } => Change::Nothing,
        EventRef::TaskUnready { .. } => Change::Nothing,
        EventRef::TaskCreate { .. } => Change::Nothing,
        EventRef::TaskInfo { .. } => Change::Nothing,
        EventRef::SystimeCycles { .. } => Change::Nothing,
        EventRef::SystimeUs { .. } => Change::Nothing,
        EventRef::SysDesc { .. } => Change::Nothing,
        EventRef::MarkStart { .. } => Change::Nothing,
        EventRef::MarkStop { .. } => Change::Nothing,
        EventRef::StackInfo { .. } => Change::Nothing,
        EventRef::ModuleDesc { .. } => Change::Nothing,
        EventRef::Init { .. } => Change::Nothing,
        EventRef::NameResource { .. } => Change::Nothing,
        EventRef::Print { .. } => Change::Nothing,
        EventRef::NumModules { .. } => Change::Nothing,
        EventRef::EndCall { .. } => Change::Nothing,
        EventRef::TaskTerminate { .. } => Change::Nothing,
        EventRef::Opaque { .. } => Change::Nothing,
    }
}

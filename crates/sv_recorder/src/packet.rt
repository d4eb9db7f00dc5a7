//! How a packet is formed, and how it is recorded: ignored, written, or written after an overflow.
ghost use Rattle.std.specs.Prelude.{◌≡◌, ◌^◌, ◌<◌, ◌≤◌, ◌&&◌, [], false, not, length};
ghost use Rattle.std.specs.Prelude.{slice_index_or};
ghost use Rattle.sv_packet.specs.Spelling.{spelling_of};
ghost use Rattle.sv_load.specs.Need.{HasShortTexts};
ghost use Rattle.sv_journal.specs.Legal.{is_control};
ghost use Rattle.sv_recorder.specs.Formed.{IsFormed, IsThere, block_bytes, packet_bytes};
ghost use Rattle.sv_journal.specs.Items.{event_at, is_stop_reply, reply_event, system_time};
ghost use Rattle.sv_packet.specs.declared.event.Event.TheVariants.{SysDesc};
ghost use Rattle.sv_recorder.specs.Tells.{IsOver};
ghost use Rattle.sv_journal.specs.declared.journal.Kind.TheVariants.{Module};
ghost use Rattle.sv_journal.specs.Packets.{packet_block};
ghost use Rattle.sv_recorder.specs.Writes.{HasPacket};

use crate::book::{Book, outcome_of};
use sv_desc::Describes;
use sv_journal::{Kind, Origin, Outcome};
use sv_load::{Act, Workload};
use sv_packet::{Event, encode, encode_flat};
use sv_prim::{Buf, delta, shrink};
use sv_ring::UpWriter;

/// The packet of a step's event.
#[inline(always)]
fn form_step(load: &Workload, writer: u32, step: u32, ticks: u32, block: &mut Buf)
    requires formed { IsFormed load.now (Origin.Call writer step) }
    requires empty { block.old.items ≡ [] }
    ensures block { block.new.items
        ≡ spelling_of (event_at load.now 0 (Origin.Call writer step)) ticks }
{
    match &load.steps(writer)[step as usize].act {
        Act::Event(event) => encode(event, ticks, block),
        Act::Start => unreachable!(),
        Act::Stop => unreachable!(),
    }
}

/// The packet of the system's time at a moment: by the callback where the workload is timed, else
/// as the counter shows it.
fn form_time<P: Describes>(load: &Workload, desc: &P, moment: u64, ticks: u32, block: &mut Buf)
    requires over { IsOver P.kept P.lines P.clock load.now desc.now }
    requires early { moment ≤ 2 ^ 53 }
    requires empty { block.old.items ≡ [] }
    ensures block { block.new.items ≡ spelling_of (system_time load.now moment) ticks }
{
    if load.timed() {
        let micros = desc.micros(moment);
        let halves = [(micros % (1 << 32)) as u32, (micros >> 32) as u32];
        encode_flat(13, &halves, &[], ticks, block);
    } else {
        encode_flat(12, &[(moment % (1 << 32)) as u32], &[], ticks, block);
    }
}

/// The packet of a line that describes the system, which the callback leaves.
fn form_line<P: Describes>(load: &Workload, desc: &P, index: u32, ticks: u32, block: &mut Buf)
    requires over { IsOver P.kept P.lines P.clock load.now desc.now }
    requires there { index < length load.now.lines }
    requires empty { block.old.items ≡ [] }
    ensures block { block.new.items
        ≡ spelling_of (SysDesc (slice_index_or load.now.lines index [])) ticks }
{
    let _ = load.lines();
    let mut line = Buf::new();
    desc.line(index, &mut line);
    encode_flat(14, &[], line.as_slice(), ticks, block);
}

/// The packet that describes a module.
fn form_module(load: &Workload, index: u32, ticks: u32, block: &mut Buf)
    requires there { index < length load.now.modules }
    requires texts { HasShortTexts load.now }
    requires empty { block.old.items ≡ [] }
    ensures block { block.new.items ≡ spelling_of (reply_event load.now 0 Module index) ticks }
{
    match load.modules().get(index) {
        Some(module) => encode_flat(22, &[index, module.offset], module.name, ticks, block),
        None => unreachable!(),
    }
}

/// The packet of a reply at a moment.
fn form_reply<P: Describes>(
    load: &Workload,
    desc: &P,
    kind: Kind,
    index: u32,
    moment: u64,
    ticks: u32,
    block: &mut Buf,
)
    requires there { IsThere load.now kind index }
    requires texts { HasShortTexts load.now }
    requires over { IsOver P.kept P.lines P.clock load.now desc.now }
    requires early { moment ≤ 2 ^ 53 }
    requires empty { block.old.items ≡ [] }
    ensures block { block.new.items
        ≡ spelling_of (event_at load.now moment (Origin.Reply kind index)) ticks }
{
    match kind {
        Kind::TraceStart => encode_flat(10, &[], &[], ticks, block),
        Kind::Init => encode_flat(
            24,
            &[load.clock(), load.cpu(), load.base(), load.shift()],
            &[],
            ticks,
            block,
        ),
        Kind::Line => form_line(load, desc, index, ticks, block),
        Kind::Systime => form_time(load, desc, moment, ticks, block),
        Kind::Task => {
            let task = &load.tasks()[index as usize];
            let id = shrink(task.id, load.base(), load.shift());
            encode_flat(9, &[id, task.priority], task.name.bytes(), ticks, block)
        }
        Kind::Stack => {
            let task = &load.tasks()[index as usize];
            let id = shrink(task.id, load.base(), load.shift());
            let numbers = [id, task.stack_base, task.stack_size, task.extra];
            encode_flat(21, &numbers, &[], ticks, block)
        }
        Kind::ModuleCount => encode_flat(27, &[load.modules().count()], &[], ticks, block),
        Kind::Module => form_module(load, index, ticks, block),
        Kind::TraceStop => encode_flat(11, &[], &[], ticks, block),
    }
}

/// Forms the packet of an item at a moment, in place of what the block held. The packet stored
/// before it has the moment `last`.
#[inline(always)]
fn form<P: Describes>(
    load: &Workload,
    desc: &P,
    origin: Origin,
    moment: u64,
    last: u64,
    block: &mut Buf,
)
    requires formed { IsFormed load.now origin }
    requires over { IsOver P.kept P.lines P.clock load.now desc.now }
    requires early { moment ≤ 2 ^ 53 }
    requires texts { HasShortTexts load.now }
    requires event { is_control load.now origin ≡ false }
    requires later { last ≤ moment }
    ensures block { block.new.items ≡ packet_block load.now origin moment last }
    ensures some { 0 < length block.new.items }
    ensures short { length block.new.items ≤ block_bytes load.now origin }
{
    let ticks = delta(moment, last);
    block.clear();
    match origin {
        Origin::Call { writer, step } => form_step(load, writer, step, ticks, block),
        Origin::Overflow { count } => encode(&Event::Overflow { count }, ticks, block),
        Origin::Reply { kind, index } => form_reply(load, desc, kind, index, moment, ticks, block),
        Origin::Sync => unreachable!(),
        Origin::Command { .. } => unreachable!(),
    }
}

impl<'w, U: UpWriter + Drop> Book<'w, U> {
    ghost use Rattle.std.specs.Prelude.{true};
    ghost use Rattle.sv_recorder.specs.Book.{KeepsPacket, IsReady, Records, Settles};

    /// What a write leaves pending, and the moment of the last stored packet, which was `before`.
    #[inline(always)]
    fn settle(&mut self, stored: bool, before: u64)
        requires { before ≤ self.old.moment }
        ensures { Settles stored before self.old self.new }
    {
        if stored {
            self.pending = 0;
            self.last = self.moment;
        } else {
            self.pending = 1;
            self.last = before;
        }
    }

    /// Records a packet while nothing is pending.
    #[inline(always)]
    fn write_plain<P: Describes>(&mut self, origin: Origin, desc: &P, block: &mut Buf) -> Outcome
        requires packet { HasPacket self.old.load.now origin }
        requires over { IsOver P.kept P.lines P.clock self.old.load.now desc.now }
        requires ready { IsReady 2 (packet_bytes self.old.load.now origin)
            self.old }
        requires on { self.old.on ≡ true }
        requires none { self.old.pending ≡ 0 }
        ensures kept { KeepsPacket (not (is_stop_reply origin)) origin self.old self.new }
        ensures records { Records origin result self.old
            self.new }
    {
        form(self.load, desc, origin, self.moment, self.last, block);
        let stored = self.write(origin, block);
        self.settle(stored, self.last);
        outcome_of(stored)
    }

    /// Records a packet while packets are pending: after an overflow with their count, and refused
    /// with it where that is refused.
    #[inline(never)]
    fn write_after_overflow<P: Describes>(
        &mut self,
        origin: Origin,
        desc: &P,
        block: &mut Buf,
    ) -> Outcome
        requires packet { HasPacket self.old.load.now origin }
        requires over { IsOver P.kept P.lines P.clock self.old.load.now desc.now }
        requires ready { IsReady 2 (packet_bytes self.old.load.now origin)
            self.old }
        requires on { self.old.on ≡ true }
        requires some { 0 < self.old.pending }
        ensures kept { KeepsPacket (not (is_stop_reply origin)) origin self.old self.new }
        ensures records { Records origin result self.old
            self.new }
    {
        let count = self.pending;
        let overflow = Origin::Overflow { count };
        form(self.load, desc, overflow, self.moment, self.last, block);
        if !self.write(overflow, block) {
            self.note(origin, Outcome::Refused);
            self.pending = count + 1;
            return Outcome::Refused;
        }
        form(self.load, desc, origin, self.moment, self.moment, block);
        let stored = self.write(origin, block);
        self.settle(stored, self.moment);
        outcome_of(stored)
    }

    /// Records a packet, which is formed in the block: ignores it while the recorder is off.
    #[inline(always)]
    pub fn packet<P: Describes>(&mut self, origin: Origin, desc: &P, block: &mut Buf) -> Outcome
        requires packet { HasPacket self.old.load.now origin }
        requires over { IsOver P.kept P.lines P.clock self.old.load.now desc.now }
        requires ready { IsReady 2 (packet_bytes self.old.load.now origin)
            self.old }
        ensures kept { KeepsPacket (self.old.on && not (is_stop_reply origin)) origin
            self.old self.new }
        ensures records { Records origin result self.old
            self.new }
    {
        if !self.on {
            self.note(origin, Outcome::Ignored);
            return Outcome::Ignored;
        }
        if self.pending > 0 {
            self.write_after_overflow(origin, desc, block)
        } else {
            self.write_plain(origin, desc, block)
        }
    }
}

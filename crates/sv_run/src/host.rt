//! The host's side of a run.
ghost use Rattle.std.specs.Prelude.{◌≡◌, ℕ, ◌+◌, ◌^◌, ◌<◌, ◌≤◌, List, [], ◌++◌, IfOk, OnOk, length};
ghost use Rattle.std.specs.Prelude.{flat_map};
ghost use Rattle.sv_stream.specs.Decoding.{pushed};
ghost use Rattle.sv_recorder.specs.Commands.{command_bytes};
ghost use Rattle.sv_run.specs.Fed.{IsFed};
ghost use Rattle.sv_run.specs.Hosting.{IsSameHost};

use std::alloc::Global;
use std::marker::Model;
use sv_analyse::Analyser;
use sv_base::Gate;
use sv_load::{Command, Workload};
use sv_prim::NoMemory;
use sv_ring::{DownWriter, UpReader};
use sv_timeline::Span;

/// A host: it sends the workload's commands, one in each of its turns, and analyses what it reads.
#[derive(Drop)]
pub(crate) struct Host<'w, H: UpReader + Drop, W: DownWriter + Drop> {
    pub(crate) load: &'w Workload,
    pub(crate) end: H,
    pub(crate) down: W,
    pub(crate) sends: usize,
    pub(crate) analyser: Analyser,
    /// The runs that ended in the latest turn: the analyser is asked for them later.
    pub(crate) spans: Vec<Span>,
    pub(crate) turns: u64,
}

impl<'w, H: UpReader + Drop, W: DownWriter + Drop> Model for Host<'w, H, W> {
    ghost use Rattle.sv_run.specs.Hosting.{Hosting, IsHost};

    ghost Value = { Hosting };

    ghost view = { λ h. record {
      load = h.load.now;
      ring = H.ring h.end;
      down = W.ring h.down;
      taken = H.taken h.end;
      asked = W.asked h.down;
      sends = h.sends;
      analyser = h.analyser;
    } };

    ghost invariant = { λ h. IsHost h.load.now (H.limit h.end) h.sends (H.taken h.end)
        (W.asked h.down) h.analyser };
}

/// Sends a command, which has a parameter from the byte 128 on.
fn send<W: DownWriter>(down: &mut W, command: Command)
    requires within { length (W.asked down.old) ≤ 510 }
    ensures ring { W.ring down.new ≡ W.ring down.old }
    ensures asked { W.asked down.new ≡ W.asked down.old ++ command_bytes command }
{
    if command.byte < 128 {
        down.send(&[command.byte]);
    } else {
        down.send(&[command.byte, command.param]);
    }
}

/// The analyser's input goes on with the piece.
pub(crate) fn analyse(
    analyser: &mut Analyser,
    piece: &[u8],
    spans: &mut Vec<Span>,
) -> Result<(), NoMemory>
    requires within { pushed analyser.old.decoder + length piece.now ≤ 2 ^ 33 }
    ensures { OnOk result ((input : List ℕ) → IsFed analyser.old input →
        IsFed analyser.new (input ++ piece.now)) }
{
    analyser.feed(piece, spans)
}

/// What a host leaves: its ends, and the analyser of what it took.
#[derive(Drop)]
pub(crate) struct Heard<H: UpReader + Drop, W: DownWriter + Drop> {
    pub(crate) end: H,
    pub(crate) down: W,
    pub(crate) analyser: Analyser,
    pub(crate) spans: Vec<Span>,
}

impl<'w, H: UpReader + Drop, W: DownWriter + Drop> Host<'w, H, W> {
    /// A host of two rings of which nothing was taken and to which nothing was sent. Takes no
    /// memory.
    pub(crate) fn new(alloc: Global, load: &'w Workload, end: H, down: W) -> Host<'w, H, W>
        requires taken { H.taken end ≡ [] }
        requires asked { W.asked down ≡ [] }
        requires limit { H.limit end ≤ 2 ^ 33 }
        ensures load { result.load ≡ load.now }
        ensures ring { result.ring ≡ H.ring end }
        ensures down { result.down ≡ W.ring down }
    {
        let _ = load.commands();
        Host {
            load,
            end,
            down,
            sends: 0,
            analyser: Analyser::new(alloc),
            spans: Vec::new(alloc),
            turns: 1,
        }
    }

    /// Sends the next command, if one is left.
    #[tactic(auto, using(crate::proofs::Sending::first_more, crate::proofs::Sending::room_for_more))]
    fn send_next(&mut self)
        ensures same { IsSameHost self.old self.new }
        ensures next { self.old.sends < length self.old.load.commands →
            self.new.sends ≡ self.old.sends + 1 }
    {
        let Some(command) = self.load.commands().get(self.sends) else {
            return;
        };
        send(&mut self.down, *command);
        self.sends += 1;
    }

    /// Sends the commands that are left.
    pub(crate) fn send_left(&mut self)
        ensures same { IsSameHost self.old self.new }
        ensures all { self.new.sends ≡ length self.new.load.commands }
    {
        let count = self.load.commands().len();
        for _at in self.sends..count {
            self.send_next();
        }
    }

    /// Reads into a buffer of 512 bytes, and analyses what came. The first answer is whether
    /// anything did. After NoMemory the ends are dropped.
    fn read(self) -> Result<(bool, Host<'w, H, W>), NoMemory>
        ensures { IfOk result (λ r. IsSameHost self.entry r.1) }
    {
        let Host {
            load,
            mut end,
            down,
            sends,
            mut analyser,
            mut spans,
            turns,
        } = self;
        let mut buf = [0; 512];
        let count = end.read(&mut buf);
        spans.clear();
        analyse(&mut analyser, &buf[..count], &mut spans)?;
        let host = Host {
            load,
            end,
            down,
            sends,
            analyser,
            spans,
            turns,
        };
        Ok((count > 0, host))
    }

    /// A turn: the next command is sent, and what is in the ring is read. The first answer is
    /// whether anything was.
    pub(crate) fn turn<G: Gate>(self, gate: &G) -> Result<(bool, Host<'w, H, W>), NoMemory>
        ensures { IfOk result (λ r. IsSameHost self.entry r.1) }
    {
        let mut host = self;
        gate.before_read(host.turns);
        host.turns = host.turns.saturating_add(1);
        host.send_next();
        host.read()
    }

    /// Ends the host, which has sent all commands.
    pub(crate) fn into_heard(self) -> Heard<H, W>
        requires all { self.sends ≡ length self.load.commands }
        ensures ring { H.ring result.end ≡ self.entry.ring }
        ensures down { W.ring result.down ≡ self.entry.down }
        ensures taken { H.taken result.end ≡ self.entry.taken }
        ensures asked { W.asked result.down ≡ flat_map command_bytes self.entry.load.commands }
        ensures fed { IsFed result.analyser self.entry.taken }
    {
        Heard {
            end: self.end,
            down: self.down,
            analyser: self.analyser,
            spans: self.spans,
        }
    }
}

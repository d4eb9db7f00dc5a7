//! The steps of each writer, and what is counted over them.
ghost use Rattle.std.specs.Prelude.{◌≡◌, ◌<◌, ◌≤◌, ◌∷◌, ◌++◌, [], true, length, map, OnOk, OnErr};
ghost use Rattle.sv_packet.specs.Spelling.{spelling_of, IsRecordable};
ghost use Rattle.sv_load.specs.Need.{act_bytes, one_if, is_start_act, IsStepAct};
ghost use Rattle.sv_load.specs.Scripts.{over_scripts, onto_last, NeedOf};
ghost use Rattle.sv_load.specs.Limits.{most_steps, most_starts, most_ticks};

use crate::load::{Act, Need, Step};
use std::alloc::Global;
use std::marker::Model;
use sv_packet::{Event, spelled_len};
use sv_prim::NoMemory;

/// The scripts of the writers so far, and what is counted over their steps.
#[derive(Drop)]
pub struct Scripts {
    writers: Vec<Vec<Step>>,
    steps: u64,
    starts: u64,
    bytes: u64,
}

impl Model for Scripts {
    ghost use Rattle.std.specs.Prelude.{List, map};
    ghost use Rattle.sv_load.specs.declared.load.Step.{Step};
    ghost use Rattle.sv_load.specs.Scripts.{AreCounted};

    ghost Value = { List (List Step) };

    ghost view = { λ s. map (λ script. script.items) s.writers.items };

    ghost invariant = { λ s.
        AreCounted (map (λ script. script.items) s.writers.items) s.steps s.starts s.bytes };
}

/// How many bytes the spelling of an event has, with the delta 0.
fn event_len(event: &Event) -> u64
    requires recordable { IsRecordable event.now }
    ensures { result ≡ length (spelling_of event.now 0) }
{
    spelled_len(event) as u64
}

/// How many bytes of a stream a step needs at most.
fn act_bytes(act: &Act) -> u64
    requires act { IsStepAct act.now }
    ensures bytes { result ≡ act_bytes act.now }
    ensures most { result ≤ 153 }
{
    match act {
        Act::Event(event) => event_len(event) + 15,
        Act::Start => 0,
        Act::Stop => 17,
    }
}

/// 1 for a step that starts the recorder.
fn start_count(act: &Act) -> u64
    ensures { result ≡ one_if (is_start_act act.now) }
{
    match act {
        Act::Start => 1,
        Act::Stop => 0,
        Act::Event(_) => 0,
    }
}

/// Adds a step to a script. An `Err` changes nothing.
#[inline(always)]
fn add_step(script: &mut Vec<Step>, step: Step) -> Result<(), NoMemory>
    ensures ok { OnOk result (script.new.items ≡ script.old.items ++ step ∷ []) }
    ensures err { OnErr result (script.new.items ≡ script.old.items) }
{
    if script.push(step).is_err() {
        return Err(NoMemory);
    }
    Ok(())
}

/// Adds a step to the last of these scripts. An `Err` changes nothing.
#[inline(always)]
fn add_to_last(writers: &mut Vec<Vec<Step>>, step: Step) -> Result<(), NoMemory>
    requires some { 0 < length writers.old.items }
    ensures ok { OnOk result (map (λ script. script.items) writers.new.items
        ≡ onto_last step (map (λ script. script.items) writers.old.items)) }
    ensures err { OnErr result (map (λ script. script.items) writers.new.items
        ≡ map (λ script. script.items) writers.old.items) }
{
    let last = writers.len() - 1;
    add_step(&mut writers[last], step)
}

impl Scripts {
    /// No writer is named yet.
    pub fn new(alloc: Global) -> Scripts
        ensures { result ≡ [] }
    {
        Scripts {
            writers: Vec::new(alloc),
            steps: 0,
            starts: 0,
            bytes: 0,
        }
    }

    /// How many writers there are, at most 16.
    pub fn writers(&self) -> u32
        ensures count { result ≡ length self.now }
        ensures few { length self.now ≤ 16 }
    {
        self.writers.len() as u32
    }

    /// How many steps there are, at most 1048576.
    pub fn steps(&self) -> u64
        ensures count { result ≡ over_scripts (λ s. 1) self.now }
        ensures few { over_scripts (λ s. 1) self.now ≤ most_steps }
    {
        self.steps
    }

    /// How many steps start the recorder, at most 256.
    pub fn starts(&self) -> u64
        ensures count { result ≡ over_scripts (λ s. one_if (is_start_act s.act)) self.now }
        ensures few { over_scripts (λ s. one_if (is_start_act s.act)) self.now ≤ most_starts }
    {
        self.starts
    }

    /// Begins the script of a further writer. An `Err` changes nothing.
    pub fn open(&mut self, alloc: Global) -> Result<(), NoMemory>
        requires few { length self.old < 16 }
        ensures ok { OnOk result (self.new ≡ self.old ++ [] ∷ []) }
        ensures err { OnErr result (self.new ≡ self.old) }
        ensures all { length self.new ≤ 16 }
        ensures grown { length self.old ≤ length self.new }
    {
        if self.writers.push(Vec::new(alloc)).is_err() {
            return Err(NoMemory);
        }
        Ok(())
    }

    /// Adds a step to the script of the last writer. An `Err` changes nothing.
    #[inline(always)]
    pub fn push(&mut self, step: Step) -> Result<(), NoMemory>
        requires some { 0 < length self.old }
        requires few { over_scripts (λ s. 1) self.old < most_steps }
        requires few_starts { is_start_act step.act ≡ true
            → over_scripts (λ s. one_if (is_start_act s.act)) self.old < most_starts }
        requires advance { step.advance ≤ most_ticks }
        requires act { IsStepAct step.act }
        ensures ok { OnOk result (self.new ≡ onto_last step self.old) }
        ensures err { OnErr result (self.new ≡ self.old) }
        ensures all { length self.new ≤ 16 }
        ensures grown { length self.old ≤ length self.new }
    {
        let starts = self.starts + start_count(&step.act);
        let bytes = self.bytes + act_bytes(&step.act);
        add_to_last(&mut self.writers, step)?;
        self.steps += 1;
        self.starts = starts;
        self.bytes = bytes;
        Ok(())
    }

    /// How many items and bytes a journal of these scripts and its stream have at most, where a
    /// start or one of so many commands has so many replies.
    pub fn need(&self, replies: u64, commands: u64) -> Need
        requires replies { replies ≤ 136 }
        requires commands { commands ≤ 256 }
        ensures { NeedOf self.now replies commands result }
    {
        let groups = self.starts + commands;
        Need {
            items: 3 * self.steps + groups * (2 + 2 * replies),
            bytes: 16 + self.bytes + groups * (27 + 156 * replies),
        }
    }

    /// The scripts alone.
    pub fn into_writers(self) -> Vec<Vec<Step>>
        ensures { map (λ script. script.items) result.items ≡ self }
    {
        self.writers
    }
}

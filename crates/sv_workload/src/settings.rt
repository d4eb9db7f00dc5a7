//! The settings that lines tell.
ghost use Rattle.std.specs.Prelude.{◌≡◌, unwrap_or};

use crate::keyword::SetupWord;

/// The settings that a text told so far. One that it didn't tell has its default.
#[derive(Clone, Copy, Debug, Drop)]
pub struct Settings {
    pub ring: Option<u32>,
    pub clock: Option<u32>,
    pub cpu: Option<u32>,
    pub base: Option<u32>,
    pub shift: Option<u32>,
}

impl Settings {
    ghost use Rattle.sv_workload.specs.Settings.{nothing_told, tell, ring_told, clock_told};
    ghost use Rattle.sv_workload.specs.Settings.{cpu_told, base_told, shift_told};

    /// Nothing is told yet.
    pub fn new() -> Settings
        ensures { result ≡ nothing_told }
    {
        Settings {
            ring: None,
            clock: None,
            cpu: None,
            base: None,
            shift: None,
        }
    }

    /// One more setting is told. The words of what is no setting tell none.
    pub fn tell(&mut self, word: SetupWord, n: u32)
        ensures { self.new ≡ tell word n self.old }
    {
        match word {
            SetupWord::Ring => self.ring = Some(n),
            SetupWord::Clock => self.clock = Some(n),
            SetupWord::Cpu => self.cpu = Some(n),
            SetupWord::Base => self.base = Some(n),
            SetupWord::Shift => self.shift = Some(n),
            SetupWord::Time
            | SetupWord::Desc
            | SetupWord::Task
            | SetupWord::Module
            | SetupWord::Command => {}
        }
    }

    /// The size of the up ring in bytes.
    pub fn ring(&self) -> u32
        ensures { result ≡ ring_told self.now }
    {
        self.ring.unwrap_or(1024)
    }

    /// The frequency of the clock whose periods are the ticks, in Hz.
    pub fn clock(&self) -> u32
        ensures { result ≡ clock_told self.now }
    {
        self.clock.unwrap_or(1000000)
    }

    /// The frequency of the processor in Hz.
    pub fn cpu(&self) -> u32
        ensures { result ≡ cpu_told self.now }
    {
        self.cpu.unwrap_or(1000000)
    }

    /// The address that identifiers are counted from.
    pub fn base(&self) -> u32
        ensures { result ≡ base_told self.now }
    {
        self.base.unwrap_or(536870912)
    }

    /// By how many bits identifiers are shortened.
    pub fn shift(&self) -> u32
        ensures { result ≡ shift_told self.now }
    {
        self.shift.unwrap_or(2)
    }
}

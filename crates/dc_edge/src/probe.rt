// Watchers of a run.
ghost use Rattle.std.specs.Prelude.{◌≡◌, OnErr};
ghost use Rattle.dc_types.specs.declared.event.ProbeState.{ProbeState};

use dc_types::{Event, NoMemory, Text};
use std::alloc::Global;

/// Which words of the command ask for a probe.
#[derive(Clone, Copy)]
pub enum ProbeKind {
    Cover,
    Profile,
    /// None: it is told every run.
    Plain,
}

/// What a probe wants after an event.
#[derive(Clone, Copy)]
pub enum Wish {
    More,
    Enough,
}

/// A watcher, which is told each event of a run until it has enough.
pub trait Probe: Drop {
    /// What it has been told so far.
    ghost state: { Self → ProbeState };

    fn kind(&self) -> ProbeKind;

    /// Takes one event in. Want of memory leaves it as it was.
    fn seen(&mut self, event: &Event) -> Result<Wish, NoMemory>
        ensures unchanged { OnErr result (state self.new ≡ state self.old) };

    /// What it has to say, as lines of text.
    fn lines(&self, alloc: Global) -> Result<Text, NoMemory>;
}

// One evaluation.
use crate::freezing::freeze;
use dc_edge::SoundSink;
use dc_lower::{Entry, Lowering, cells, lower_body, lower_entry};
use dc_model::World;
use dc_run::{Exit, Machine};
use dc_syntax::{NameId, Want};
use dc_tree::{DeclId, TreeId, TypeId, ValueId, Where};
use dc_types::{Limits, Text, TrapKind};
use std::alloc::Global;

/// What an evaluation has come to.
#[derive(Clone, Copy)]
pub enum Went {
    Value(ValueId),
    /// The body of this function is wanted.
    Wait(DeclId),
    /// The start value of this module variable is wanted, for the number and of the type.
    WaitStart(DeclId, u32, TypeId),
    /// A rule is broken.
    Stopped(u8, Where, Option<NameId>),
}

/// An evaluation, which keeps its machine while it waits.
#[derive(Drop)]
pub struct Evaluation {
    machine: Machine,
    sink: SoundSink,
    tree: TreeId,
}

/// The limits of an evaluation.
const LIMITS: Limits = Limits {
    ticks: 4194304,
    cells: 4194304,
    depth: 1000,
    stack: 4194304,
};

fn word_of(kind: TrapKind) -> &'static [u8] {
    match kind {
        TrapKind::Divide => b"Divide",
        TrapKind::Shift => b"Shift",
        TrapKind::Bounds => b"Bounds",
        TrapKind::Length => b"Length",
        TrapKind::Overlap => b"Overlap",
        TrapKind::Assert => b"Assert",
        TrapKind::Heap => b"Heap",
        TrapKind::Depth => b"Depth",
    }
}

/// The name of a module variable.
fn name_of(w: &World, l: &Lowering, g: u32) -> Option<NameId> {
    let (decl, _) = l.global_decl(g)?;
    w.decls.get(decl.0 as usize)?.name
}

impl Evaluation {
    /// Begins the evaluation of an expression.
    pub fn open(
        alloc: Global,
        w: &World,
        l: &mut Lowering,
        tree: TreeId,
    ) -> Result<Evaluation, Want> {
        let Entry { first, frame } = lower_entry(l, &w.pool, tree)?;
        let mut machine = Machine::open(alloc, LIMITS, false);
        machine.enter(first, frame)?;
        Ok(Evaluation {
            machine,
            sink: SoundSink {
                bytes: Text::from_vec(Vec::new(alloc)),
            },
            tree,
        })
    }

    /// The value of the words that the entry gave.
    fn value(&self, w: &mut World, l: &Lowering) -> Result<Went, Want> {
        let tree = w.pool.trees.get(self.tree);
        let mut words = Vec::new(w.alloc);
        for k in 0..cells(&w.pool, tree.of) {
            words.push(self.machine.word(k))?;
        }
        let frozen = freeze(
            &mut w.pool,
            &self.machine,
            &l.program,
            tree.of,
            words.as_slice(),
        )?;
        Ok(match frozen {
            Some(value) => Went::Value(value),
            None => Went::Stopped(18, tree.at, None),
        })
    }

    /// Goes on until the value is there, a rule is broken or something is wanted.
    pub fn go(&mut self, w: &mut World, l: &mut Lowering) -> Result<Went, Want> {
        for _ in 0..u64::MAX {
            let Ok(exit) = self.machine.run(&l.program, &mut self.sink) else {
                return Err(Want);
            };
            match exit {
                Exit::Absent(f) => {
                    let Some(decl) = l.function_decl(f) else {
                        return Err(Want);
                    };
                    if w.pool.bodies.body(decl).is_none() {
                        return Ok(Went::Wait(decl));
                    }
                    lower_body(l, &w.pool, decl)?;
                }
                other => return self.stopped(w, l, other),
            }
        }
        Err(Want)
    }

    fn stopped(&self, w: &mut World, l: &Lowering, exit: Exit) -> Result<Went, Want> {
        match exit {
            Exit::Returned => self.value(w, l),
            Exit::Trapped(kind, at) => {
                let name = w.pool.names.number(word_of(kind))?;
                Ok(Went::Stopped(16, at, Some(name)))
            }
            Exit::Bound => Ok(Went::Stopped(17, w.pool.trees.get(self.tree).at, None)),
            Exit::Unset(g) => match l.global_decl(g) {
                Some((decl, of)) => Ok(Went::WaitStart(decl, g, of)),
                None => Err(Want),
            },
            Exit::Printing(at, n) => {
                let word: &[u8] = if l.ends_line(n) { b"writeln" } else { b"write" };
                let name = w.pool.names.number(word)?;
                Ok(Went::Stopped(15, at, Some(name)))
            }
            Exit::Shared(at, g) => Ok(Went::Stopped(15, at, name_of(w, l, g))),
            Exit::Absent(_) | Exit::NoMemory => Err(Want),
        }
    }
}

// What lowering knows, and the code that it makes.
use dc_code::Op;
use dc_run::Program;
use dc_syntax::{NameId, Want};
use dc_tree::{DeclId, PlaceId, SpotId, TypeId, VarId, Where};
use indexmap::IndexMap;
use std::alloc::Global;

/// Where a variable lies.
#[derive(Clone, Copy)]
pub(crate) enum Home {
    /// In the frame, from a slot on.
    Slot(u32),
    /// At the address that two slots hold.
    Behind(u32),
    /// It is a number that never changes.
    Number(u64),
}

/// Jumps that wait for where they lead.
#[derive(Clone, Copy)]
pub(crate) enum Pending {
    /// Behind the loop or `switch` around.
    Break,
    /// To the next turn.
    Continue,
    /// By a condition.
    Branch,
    /// By a part of a condition, to another place.
    Other,
}

/// An evaluation: its first instruction, and the words of its frame.
#[derive(Clone, Copy)]
pub struct Entry {
    pub first: u32,
    pub frame: u32,
}

/// The code of a program, and the numbers of its functions and module variables.
#[derive(Drop)]
pub struct Lowering {
    pub alloc: Global,
    pub program: Program,
    functions: IndexMap<DeclId, u32>,
    function_decls: Vec<DeclId>,
    globals: IndexMap<DeclId, u32>,
    global_decls: Vec<(DeclId, TypeId)>,
    strings: IndexMap<NameId, u32>,
    homes: IndexMap<VarId, Home>,
    /// The first slot that is free.
    pub(crate) top: u32,
    pub(crate) most: u32,
    pub(crate) at: Where,
    /// The words that the body returns.
    pub(crate) gives: u32,
    breaks: Vec<u32>,
    continues: Vec<u32>,
    branches: Vec<u32>,
    others: Vec<u32>,
    /// The numbers of the prints that end a line.
    lines: Vec<u32>,
    line_feed: Option<u32>,
}

impl Lowering {
    pub fn new(alloc: Global) -> Lowering {
        Lowering {
            alloc,
            program: Program::new(alloc),
            functions: IndexMap::new(alloc),
            function_decls: Vec::new(alloc),
            globals: IndexMap::new(alloc),
            global_decls: Vec::new(alloc),
            strings: IndexMap::new(alloc),
            homes: IndexMap::new(alloc),
            top: 0,
            most: 0,
            at: Where {
                spot: SpotId(0),
                at: 0,
            },
            gives: 0,
            breaks: Vec::new(alloc),
            continues: Vec::new(alloc),
            branches: Vec::new(alloc),
            others: Vec::new(alloc),
            lines: Vec::new(alloc),
            line_feed: None,
        }
    }

    /// The number of a function, which is reserved where it has none.
    pub fn function(&mut self, decl: DeclId) -> Result<u32, Want> {
        if let Some(known) = self.functions.get(&decl) {
            return Ok(*known);
        }
        let n = self.program.reserve(PlaceId::NOWHERE)?;
        self.functions.insert(decl, n)?;
        self.function_decls.push(decl)?;
        Ok(n)
    }

    /// The declaration of a function.
    pub fn function_decl(&self, n: u32) -> Option<DeclId> {
        self.function_decls.get(n as usize).copied()
    }

    /// The number of a module variable, which is reserved where it has none.
    pub fn global(&mut self, decl: DeclId, of: TypeId, is_const: bool) -> Result<u32, Want> {
        if let Some(known) = self.globals.get(&decl) {
            return Ok(*known);
        }
        let n = self.program.reserve_global(is_const)?;
        self.globals.insert(decl, n)?;
        self.global_decls.push((decl, of))?;
        Ok(n)
    }

    /// The declaration and the type of a module variable.
    pub fn global_decl(&self, n: u32) -> Option<(DeclId, TypeId)> {
        self.global_decls.get(n as usize).copied()
    }

    /// The data that holds the bytes of a string.
    pub(crate) fn string(&mut self, name: NameId, bytes: &[u8]) -> Result<u32, Want> {
        if let Some(known) = self.strings.get(&name) {
            return Ok(*known);
        }
        let mut words = Vec::new(self.alloc);
        for byte in bytes {
            words.push(u64::from(*byte))?;
        }
        let n = self.program.add_data(words.as_slice())?;
        self.strings.insert(name, n)?;
        Ok(n)
    }

    /// The data that holds a line feed.
    pub(crate) fn line_end(&mut self) -> Result<u32, Want> {
        match self.line_feed {
            Some(g) => Ok(g),
            None => {
                let g = self.program.add_data(&[10])?;
                self.line_feed = Some(g);
                Ok(g)
            }
        }
    }

    pub(crate) fn home(&self, variable: VarId) -> Home {
        match self.homes.get(&variable) {
            Some(home) => *home,
            None => Home::Number(0),
        }
    }

    pub(crate) fn set_home(&mut self, variable: VarId, home: Home) -> Result<(), Want> {
        self.homes.insert(variable, home)?;
        Ok(())
    }

    /// Begins a body or an evaluation.
    pub(crate) fn begin(&mut self, gives: u32) {
        self.homes.clear();
        self.breaks.clear();
        self.continues.clear();
        self.branches.clear();
        self.others.clear();
        self.top = 0;
        self.most = 0;
        self.gives = gives;
    }

    /// Slots that are free.
    pub(crate) fn temp(&mut self, n: u32) -> u32 {
        let slot = self.top;
        self.top = slot.saturating_add(n);
        self.most = self.most.max(self.top);
        slot
    }

    pub(crate) fn emit(&mut self, op: Op) -> Result<u32, Want> {
        let at = self.at;
        self.program.push(op, at)
    }

    pub(crate) fn next(&self) -> Result<u32, Want> {
        self.program.next()
    }

    /// Lets a jump lead to the next instruction.
    pub(crate) fn land(&mut self, jump: u32) -> Result<(), Want> {
        let here = self.next()?;
        self.program.patch(jump, here);
        Ok(())
    }

    fn jumps(&mut self, pending: Pending) -> &mut Vec<u32> {
        match pending {
            Pending::Break => &mut self.breaks,
            Pending::Continue => &mut self.continues,
            Pending::Branch => &mut self.branches,
            Pending::Other => &mut self.others,
        }
    }

    /// A jump waits.
    pub(crate) fn wait(&mut self, pending: Pending, jump: u32) -> Result<(), Want> {
        self.jumps(pending).push(jump)?;
        Ok(())
    }

    /// How many jumps wait.
    pub(crate) fn waiting(&mut self, pending: Pending) -> usize {
        self.jumps(pending).len()
    }

    /// Lets the jumps that wait lead to an instruction, but for so many that waited before.
    pub(crate) fn settle_at(&mut self, pending: Pending, before: usize, target: u32) {
        for _ in 0..u64::MAX {
            if self.waiting(pending) <= before {
                break;
            }
            let Some(jump) = self.jumps(pending).pop() else {
                break;
            };
            self.program.patch(jump, target);
        }
    }

    /// Lets the jumps that wait lead to the next instruction, but for so many that waited before.
    pub(crate) fn settle(&mut self, pending: Pending, before: usize) -> Result<(), Want> {
        let here = self.next()?;
        self.settle_at(pending, before, here);
        Ok(())
    }

    pub(crate) fn copy(&mut self, d: u32, s: u32, n: u32) -> Result<(), Want> {
        if d != s && n > 0 {
            self.emit(Op::Copy(d, s, n))?;
        }
        Ok(())
    }

    pub(crate) fn zeros(&mut self, d: u32, n: u32) -> Result<(), Want> {
        for k in 0..n {
            self.emit(Op::Const(d.saturating_add(k), 0))?;
        }
        Ok(())
    }

    pub(crate) fn note_line(&mut self, n: u32) -> Result<(), Want> {
        self.lines.push(n)?;
        Ok(())
    }

    /// Whether the print at an instruction ends a line.
    pub fn ends_line(&self, n: u32) -> bool {
        self.lines.contains(&n)
    }
}

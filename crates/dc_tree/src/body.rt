// Resolved functions.
use crate::{DeclId, PlaceId, StmtId, TypeId, Where};
use dc_syntax::{List, NameId, Want, next_number};
use indexmap::IndexMap;
use std::alloc::Global;

/// The number of a local variable, a parameter or a hidden variable.
#[derive(Clone, Copy, PartialEq, Eq, PartialOrd, Ord, Hash)]
pub struct VarId(pub u32);

/// A local variable, a parameter or a hidden variable.
#[derive(Clone, Copy)]
pub struct Variable {
    pub name: NameId,
    pub of: TypeId,
    pub at: Where,
    /// Whether it can't be written.
    pub is_const: bool,
    /// Whether it stands for a place whose address it holds.
    pub is_ref: bool,
    /// Whether it is sliced, passed by address or called on, and so lives in a block of its own if
    /// its type holds a fixed array.
    pub own: bool,
}

#[derive(Drop)]
pub struct Variables {
    all: Vec<Variable>,
}

impl Variables {
    pub fn new(alloc: Global) -> Variables {
        Variables {
            all: Vec::new(alloc),
        }
    }

    pub fn add(&mut self, variable: Variable) -> Result<VarId, Want> {
        let n = next_number(self.all.len())?;
        self.all.push(variable)?;
        Ok(VarId(n))
    }

    pub fn get(&self, id: VarId) -> Option<Variable> {
        self.all.get(id.0 as usize).copied()
    }

    pub fn set_own(&mut self, id: VarId) {
        if let Some(variable) = self.all.get_mut(id.0 as usize) {
            variable.own = true;
        }
    }
}

/// A parameter of a function, as its callers see it.
#[derive(Clone, Copy)]
pub struct Taken {
    pub name: NameId,
    pub of: TypeId,
    pub by_ref: bool,
    pub is_const: bool,
    pub at: Where,
}

/// What a function takes and gives.
#[derive(Clone, Copy)]
pub struct Signature {
    /// Where its parameters stand in the table.
    pub from: u32,
    pub len: u32,
    pub result: TypeId,
}

/// A resolved function.
#[derive(Clone, Copy)]
pub struct Body {
    /// Numbers of variables.
    pub parameters: List,
    /// Whether it takes the address of a struct as `this` before its parameters.
    pub has_this: bool,
    pub block: StmtId,
    pub result: TypeId,
    /// The number of words of its frame that calls count.
    pub weight: u32,
    pub place: PlaceId,
}

/// The signatures and bodies of functions that have them.
#[derive(Drop)]
pub struct Bodies {
    taken: Vec<Taken>,
    signatures: IndexMap<DeclId, Signature>,
    bodies: IndexMap<DeclId, Body>,
}

impl Bodies {
    pub fn new(alloc: Global) -> Bodies {
        Bodies {
            taken: Vec::new(alloc),
            signatures: IndexMap::new(alloc),
            bodies: IndexMap::new(alloc),
        }
    }

    pub fn add_signature(
        &mut self,
        decl: DeclId,
        taken: &[Taken],
        result_type: TypeId,
    ) -> Result<(), Want> {
        let from = next_number(self.taken.len())?;
        let len = next_number(taken.len())?;
        self.taken.extend_from_slice(taken)?;
        let signature = Signature {
            from,
            len,
            result: result_type,
        };
        self.signatures.insert(decl, signature)?;
        Ok(())
    }

    pub fn signature(&self, decl: DeclId) -> Option<Signature> {
        self.signatures.get(&decl).copied()
    }

    pub fn taken(&self, signature: Signature) -> &[Taken] {
        let from = signature.from as usize;
        match self.taken.get(from..from + signature.len as usize) {
            Some(taken) => taken,
            None => &[],
        }
    }

    pub fn add_body(&mut self, decl: DeclId, body: Body) -> Result<(), Want> {
        self.bodies.insert(decl, body)?;
        Ok(())
    }

    pub fn body(&self, decl: DeclId) -> Option<Body> {
        self.bodies.get(&decl).copied()
    }
}

// Resolved expressions.
use crate::{DeclId, RangeId, TypeId, ValueId, VarId, Where};
use dc_syntax::{List, Want, next_number};
use dc_types::{BinOp, CmpOp, Kind, UnOp};
use std::alloc::Global;

/// The number of a resolved expression. The parts of an expression have smaller numbers.
#[derive(Clone, Copy, PartialEq, Eq, PartialOrd, Ord, Hash)]
pub struct TreeId(pub u32);

/// A resolved expression.
#[derive(Clone, Copy)]
pub struct Tree {
    pub form: TreeForm,
    pub of: TypeId,
    pub at: Where,
    /// Of a number or an enum of numbers.
    pub range: RangeId,
    /// Its value, where that is known without a run.
    pub value: Option<ValueId>,
    /// Whether it is a place: a variable, a field or an element of one.
    pub is_place: bool,
    /// Whether that place can't be written.
    pub read_only: bool,
    /// The variable that the place lies in, where that isn't behind an address or a slice.
    pub root: Option<VarId>,
    /// Whether this temporary is sliced, passed by address or called on, and so lives in a block of
    /// its own if its type holds a fixed array.
    pub own: bool,
}

/// The forms of resolved expressions.
#[derive(Clone, Copy)]
pub enum TreeForm {
    Const(ValueId),
    /// The start value of a type, where a variable is declared without one.
    Start(ValueId),
    Local(VarId),
    This,
    /// A module variable.
    Global(DeclId),
    /// A field of a struct.
    Field(TreeId, DeclId),
    /// `$`: the hidden variable that holds the length.
    Dollar(VarId),
    Not(TreeId),
    /// `-` and `~` in the tree's kind.
    Unary(UnOp, TreeId),
    /// A number as one of the tree's kind.
    Convert(TreeId),
    /// The same value, taken as of the tree's type.
    As(TreeId),
    /// Both operands are of the kind, but of a shift the second, which is of its own.
    Binary(BinOp, Kind, TreeId, TreeId),
    Compare(CmpOp, Kind, TreeId, TreeId),
    /// Equality of two structs, two fixed arrays or two slices of one type; `!=` where the flag is
    /// set.
    Same(bool, TreeId, TreeId),
    And(TreeId, TreeId),
    Or(TreeId, TreeId),
    Conditional(TreeId, TreeId, TreeId),
    Assert(TreeId),
    /// A new array of that length, each element with that start value.
    New(TreeId, ValueId),
    /// The elements, converted to the element type; and as they were before that.
    Array(List, List),
    /// The fields of a struct's value, in text order.
    Struct(List),
    /// A fixed array as a slice of its place, or of a temporary.
    Whole(TreeId),
    Length(TreeId),
    /// The length of a fixed array, which is evaluated only for its effects.
    FixedLength(TreeId, u32),
    /// `.dup` where the flag is set, and `.idup`.
    Duplicate(TreeId, bool),
    /// An element of a slice: the slice, the index, and the hidden variable of `$`.
    Index(TreeId, TreeId, VarId),
    FixedIndex(TreeId, TreeId, VarId, u32),
    /// A part of a slice.
    Part(TreeId, TreeId, TreeId, VarId),
    /// `a[]`
    All(TreeId),
    /// `a ~ b`, and whether each is a slice and no element.
    Join(TreeId, TreeId, bool, bool),
    Assign(TreeId, TreeId),
    /// `a op= b`: in the kind, and whether the value is that of the place before.
    Update(BinOp, Kind, TreeId, TreeId, bool),
    /// `a ~= b`, and whether b is a slice and no element.
    Append(TreeId, TreeId, bool),
    /// `a.length = n`, with the start value of missing elements.
    SetLength(TreeId, TreeId, ValueId),
    /// `a.length op= n`: a node of the table of length updates.
    UpdateLength(u32),
    /// `a[] = b` where b is an element.
    Fill(TreeId, TreeId),
    /// `a[] = b` where b is a slice.
    CopyPart(TreeId, TreeId),
    /// A node of the table of calls.
    Call(u32),
    /// The address of a place or of a temporary, as a `ref` parameter or `this` takes it.
    Address(TreeId),
    /// `write` or, where the flag is set, `writeln`.
    Print(bool, List),
    /// `to!string(x)`
    ToText(TreeId),
    /// `text(a, b)`
    JoinTexts(List),
}

/// A call of a function.
#[derive(Clone, Copy)]
pub struct CallNode {
    pub function: DeclId,
    /// An `Address`.
    pub this: Option<TreeId>,
    /// Converted to the parameters' types; an `Address` for a `ref` parameter.
    pub arguments: List,
}

/// `place.length op= by` in a kind; the value is the length before where `after` isn't set.
#[derive(Clone, Copy)]
pub struct LengthNode {
    pub place: TreeId,
    pub by: TreeId,
    pub operator: BinOp,
    pub kind: Kind,
    pub start: ValueId,
    pub gives_old: bool,
}

#[derive(Drop)]
pub struct Trees {
    all: Vec<Tree>,
    numbers: Vec<u32>,
    pub calls: Vec<CallNode>,
    pub lengths: Vec<LengthNode>,
    empty: Tree,
}

impl Trees {
    pub fn new(alloc: Global) -> Trees {
        Trees {
            all: Vec::new(alloc),
            numbers: Vec::new(alloc),
            calls: Vec::new(alloc),
            lengths: Vec::new(alloc),
            empty: Tree {
                form: TreeForm::Const(ValueId(0)),
                of: TypeId(0),
                at: Where {
                    spot: crate::SpotId(0),
                    at: 0,
                },
                range: crate::Ranges::NONE,
                value: None,
                is_place: false,
                read_only: false,
                root: None,
                own: false,
            },
        }
    }

    pub fn add(&mut self, tree: Tree) -> Result<TreeId, Want> {
        let n = next_number(self.all.len())?;
        self.all.push(tree)?;
        Ok(TreeId(n))
    }

    pub fn get(&self, id: TreeId) -> Tree {
        match self.all.get(id.0 as usize) {
            Some(tree) => *tree,
            None => self.empty,
        }
    }

    /// Notes that a temporary lives in a block of its own.
    pub fn set_own(&mut self, id: TreeId) {
        if let Some(tree) = self.all.get_mut(id.0 as usize) {
            tree.own = true;
        }
    }

    pub fn list(&mut self, items: &[u32]) -> Result<List, Want> {
        let from = next_number(self.numbers.len())?;
        let len = next_number(items.len())?;
        self.numbers.extend_from_slice(items)?;
        Ok(List { from, len })
    }

    pub fn numbers(&self, list: List) -> &[u32] {
        let from = list.from as usize;
        match self.numbers.get(from..from + list.len as usize) {
            Some(numbers) => numbers,
            None => &[],
        }
    }

    pub fn item(&self, list: List, k: u32) -> TreeId {
        match self.numbers(list).get(k as usize) {
            Some(n) => TreeId(*n),
            None => TreeId(0),
        }
    }

    pub fn add_call(&mut self, call: CallNode) -> Result<u32, Want> {
        let n = next_number(self.calls.len())?;
        self.calls.push(call)?;
        Ok(n)
    }

    pub fn call(&self, n: u32) -> Option<CallNode> {
        self.calls.get(n as usize).copied()
    }

    pub fn add_length(&mut self, length: LengthNode) -> Result<u32, Want> {
        let n = next_number(self.lengths.len())?;
        self.lengths.push(length)?;
        Ok(n)
    }

    pub fn length(&self, n: u32) -> Option<LengthNode> {
        self.lengths.get(n as usize).copied()
    }
}

// The table of nodes.
use crate::{
    AliasNode, ConstantNode, EnumNode, ForNode, ForeachNode, Form, FunctionNode, ImportNode,
    ItemNode, List, NameId, Node, NodeId, ParameterNode, StaticForeachNode, StructNode, SwitchNode,
    VariableNode,
};
use std::alloc::{AllocError, AllocFailed, Global};

/// Memory is wanting, or a table would have more than 2 to the power of 32 items.
#[derive(Clone, Copy)]
pub struct Want;

impl From<AllocError> for Want {
    fn from(_: AllocError) -> Want {
        Want
    }
}

impl<T: Drop> From<AllocFailed<T>> for Want {
    fn from(_: AllocFailed<T>) -> Want {
        Want
    }
}

/// The nodes of all texts of a program.
#[derive(Drop)]
pub struct Syntax {
    nodes: Vec<Node>,
    numbers: Vec<u32>,
    pub imports: Vec<ImportNode>,
    pub items: Vec<ItemNode>,
    pub enums: Vec<EnumNode>,
    pub constants: Vec<ConstantNode>,
    pub aliases: Vec<AliasNode>,
    pub structs: Vec<StructNode>,
    pub functions: Vec<FunctionNode>,
    pub parameters: Vec<ParameterNode>,
    pub variables: Vec<VariableNode>,
    pub loops: Vec<ForNode>,
    pub walks: Vec<ForeachNode>,
    pub rounds: Vec<StaticForeachNode>,
    pub switches: Vec<SwitchNode>,
}

/// The number that the next item of a table gets.
pub fn next_number(len: usize) -> Result<u32, Want> {
    match u32::try_from(len) {
        Ok(n) => Ok(n),
        Err(_) => Err(Want),
    }
}

/// Appends an item to a table, and gives its number.
pub(crate) fn put<T: Drop>(table: &mut Vec<T>, item: T) -> Result<u32, Want> {
    let n = next_number(table.len())?;
    table.push(item)?;
    Ok(n)
}

impl Syntax {
    pub fn new(alloc: Global) -> Syntax {
        Syntax {
            nodes: Vec::new(alloc),
            numbers: Vec::new(alloc),
            imports: Vec::new(alloc),
            items: Vec::new(alloc),
            enums: Vec::new(alloc),
            constants: Vec::new(alloc),
            aliases: Vec::new(alloc),
            structs: Vec::new(alloc),
            functions: Vec::new(alloc),
            parameters: Vec::new(alloc),
            variables: Vec::new(alloc),
            loops: Vec::new(alloc),
            walks: Vec::new(alloc),
            rounds: Vec::new(alloc),
            switches: Vec::new(alloc),
        }
    }

    /// The node of that number; the empty statement for a number that no node has.
    pub fn node(&self, n: NodeId) -> Node {
        match self.nodes.get(n.0 as usize) {
            Some(node) => *node,
            None => Node {
                at: 0,
                form: Form::Empty,
            },
        }
    }

    pub fn add(&mut self, at: u32, form: Form) -> Result<NodeId, Want> {
        let n = next_number(self.nodes.len())?;
        self.nodes.push(Node { at, form })?;
        Ok(NodeId(n))
    }

    /// The numbers as a list.
    pub fn list(&mut self, numbers: &[u32]) -> Result<List, Want> {
        let from = next_number(self.numbers.len())?;
        let len = next_number(numbers.len())?;
        self.numbers.extend_from_slice(numbers)?;
        Ok(List { from, len })
    }

    /// The numbers of a list.
    pub fn numbers(&self, list: List) -> &[u32] {
        let from = list.from as usize;
        match self.numbers.get(from..from + list.len as usize) {
            Some(numbers) => numbers,
            None => &[],
        }
    }

    /// The item of that number in a list, as a node; node 0 behind its end.
    pub fn item(&self, list: List, k: u32) -> NodeId {
        match self.numbers(list).get(k as usize) {
            Some(n) => NodeId(*n),
            None => NodeId(0),
        }
    }

    pub fn function(&self, n: u32) -> Option<FunctionNode> {
        self.functions.get(n as usize).copied()
    }

    pub fn structure(&self, n: u32) -> Option<StructNode> {
        self.structs.get(n as usize).copied()
    }
}

// `new` and what follows it, as nodes.
use crate::flat::Flat;
use crate::{Form, List, NodeId, Want};
use dc_types::Kind;

/// How the suffixes behind `new T` are to be read.
#[derive(Clone, Copy)]
struct NewParts {
    /// The suffixes before the one that has the length.
    before: usize,
    length: NodeId,
    /// Whether the length stands in brackets, which are then those of a slice.
    in_brackets: bool,
}

impl Flat<'_> {
    /// The length that the suffix would have, if it is a call of one argument.
    fn only_argument(&self, suffix: u32) -> Option<NodeId> {
        match self.syntax.node(NodeId(suffix)).form {
            Form::Call(arguments) if arguments.len == 1 => Some(self.syntax.item(arguments, 0)),
            _ => None,
        }
    }

    fn index(&self, suffix: u32) -> Option<NodeId> {
        match self.syntax.node(NodeId(suffix)).form {
            Form::Index(length) => Some(length),
            _ => None,
        }
    }

    fn is_bracket(&self, suffix: u32) -> bool {
        match self.syntax.node(NodeId(suffix)).form {
            Form::All | Form::Index(_) => true,
            _ => false,
        }
    }

    /// The reading where brackets alone stand before a call of one argument.
    fn length_in_call(&self, suffixes: &[u32]) -> Option<NewParts> {
        for (before, suffix) in suffixes.iter().enumerate() {
            if let Some(length) = self.only_argument(*suffix) {
                return Some(NewParts {
                    before,
                    length,
                    in_brackets: false,
                });
            }
            if !self.is_bracket(*suffix) {
                return None;
            }
        }
        None
    }

    /// The reading where the first `[n]` has the length.
    fn length_in_brackets(&self, suffixes: &[u32]) -> Option<NewParts> {
        for (before, suffix) in suffixes.iter().enumerate() {
            if let Some(length) = self.index(*suffix) {
                return Some(NewParts {
                    before,
                    length,
                    in_brackets: true,
                });
            }
        }
        None
    }

    /// The reading of suffixes; the parser gives none without a length.
    fn new_parts(&mut self, at: u32, suffixes: &[u32]) -> Result<NewParts, Want> {
        if let Some(parts) = self.length_in_call(suffixes) {
            return Ok(parts);
        }
        if let Some(parts) = self.length_in_brackets(suffixes) {
            return Ok(parts);
        }
        let length = self.add(at, Form::Integer(Kind::I32, 0))?;
        Ok(NewParts {
            before: suffixes.len(),
            length,
            in_brackets: true,
        })
    }

    /// The brackets of the new array's type, which begins at `at`.
    fn new_brackets(&mut self, at: u32, parts: NewParts, suffixes: &[u32]) -> Result<List, Want> {
        let before = match suffixes.get(..parts.before) {
            Some(before) => before,
            None => suffixes,
        };
        let mut brackets = Vec::new(self.alloc);
        for suffix in before {
            let bracket = self.syntax.node(NodeId(*suffix)).form;
            let node = self.add(at, bracket)?;
            brackets.push(node.0)?;
        }
        if parts.in_brackets {
            let slice = self.add(at, Form::All)?;
            brackets.push(slice.0)?;
        }
        self.list(brackets.as_slice())
    }

    /// A new array, and what is done to it. `new T[][n]` has the type `T[][]` and the length `n`,
    /// and so has `new T[][](n)`.
    pub(crate) fn new_form(
        &mut self,
        at: u32,
        base: NodeId,
        suffixes: &[u32],
    ) -> Result<Form, Want> {
        let parts = self.new_parts(at, suffixes)?;
        let type_at = self.syntax.node(base).at;
        let brackets = self.new_brackets(type_at, parts, suffixes)?;
        let of = if brackets.len == 0 {
            base
        } else {
            self.add(type_at, Form::Brackets(base, brackets))?
        };
        let form = Form::New(of, parts.length);
        match suffixes.get(parts.before..) {
            Some([_, first, more @ ..]) => self.done_to(at, form, *first, more),
            _ => Ok(form),
        }
    }

    /// What is done to a new array, from left to right.
    fn done_to(&mut self, at: u32, form: Form, first: u32, more: &[u32]) -> Result<Form, Want> {
        let array = self.add(at, form)?;
        let mut suffixes = Vec::new(self.alloc);
        suffixes.push(first)?;
        suffixes.extend_from_slice(more)?;
        let suffixes = self.list(suffixes.as_slice())?;
        Ok(Form::Postfix(array, suffixes))
    }
}

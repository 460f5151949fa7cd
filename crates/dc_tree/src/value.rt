// Values of constants.
use dc_syntax::{NameId, Want};
use std::alloc::Global;

/// The number of a value.
#[derive(Clone, Copy, PartialEq, Eq, PartialOrd, Ord, Hash)]
pub struct ValueId(pub u32);

/// A value, whose form follows its type: of a number or an enum of numbers a number, of a string
/// its bytes, of an array or a struct a list. An array of characters is a list.
#[derive(Clone, Copy, PartialEq, Eq)]
pub enum Value {
    Number(i128),
    /// The bytes of a `string`.
    Bytes(NameId),
    /// A stretch of the table of items: elements, or fields in text order.
    List(u32, u32),
}

#[derive(Drop)]
pub struct Values {
    all: Vec<Value>,
    items: Vec<ValueId>,
}

impl Values {
    pub fn new(alloc: Global) -> Values {
        Values {
            all: Vec::new(alloc),
            items: Vec::new(alloc),
        }
    }

    pub fn add(&mut self, value: Value) -> Result<ValueId, Want> {
        match u32::try_from(self.all.len()) {
            Ok(n) => {
                self.all.push(value)?;
                Ok(ValueId(n))
            }
            Err(_) => Err(Want),
        }
    }

    pub fn number(&mut self, n: i128) -> Result<ValueId, Want> {
        self.add(Value::Number(n))
    }

    pub fn list(&mut self, items: &[ValueId]) -> Result<ValueId, Want> {
        let from = match u32::try_from(self.items.len()) {
            Ok(n) => n,
            Err(_) => return Err(Want),
        };
        let len = match u32::try_from(items.len()) {
            Ok(n) => n,
            Err(_) => return Err(Want),
        };
        self.items.extend_from_slice(items)?;
        self.add(Value::List(from, len))
    }

    pub fn get(&self, id: ValueId) -> Value {
        match self.all.get(id.0 as usize) {
            Some(value) => *value,
            None => Value::Number(0),
        }
    }

    /// The items of a list; none of another value.
    pub fn items(&self, id: ValueId) -> &[ValueId] {
        match self.get(id) {
            Value::List(from, len) => {
                let from = from as usize;
                match self.items.get(from..from + len as usize) {
                    Some(items) => items,
                    None => &[],
                }
            }
            _ => &[],
        }
    }

    /// The number that a value is; 0 of another value.
    pub fn as_number(&self, id: ValueId) -> i128 {
        match self.get(id) {
            Value::Number(n) => n,
            _ => 0,
        }
    }
}

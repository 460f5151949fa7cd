// The variables whose blocks are open, and what a name stands for among them.
ghost use Rattle.std.specs.Prelude.{◌≡◌, ℕ, List, [], ◌∷◌, ◌++◌, Some, cond, IfOk};
ghost use Rattle.std.specs.Str.{bytes_eq};
ghost use Rattle.std.specs.Map.{lookup};
ghost use Rattle.std.specs.Option.{option_copied};
ghost use Rattle.core_front.specs.Naming.{by_number, name_of_local};

use core_tree::Table;
use dc_ast::{Name, Spelling};
use dc_types::NoMemory;
use std::alloc::Global;
use std::marker::Model;

/// A variable, and where it is declared.
#[derive(Drop)]
pub struct Local {
    pub name: Spelling,
    pub at: u32,
}

/// The variables whose blocks are open, the outer ones first. No two have one name.
#[derive(Drop)]
pub struct Scope {
    open: Vec<Local>,
    table: Table<Spelling>,
}

impl Model for Scope {
    ghost use Rattle.std.specs.Prelude.{List};
    ghost use Rattle.std.specs.Coded.{coded_list};
    ghost use Rattle.core_front.specs.declared.scope.Local.{Local as AnyLocal};
    ghost use Rattle.core_front.specs.contracts.scope.Local as a_local;
    ghost use Rattle.std.specs.Str.{bytes_eq};
    ghost use Rattle.core_front.specs.Naming.{Numbers, name_of_local};

    ghost Value = { List AnyLocal };

    ghost coded = { coded_list a_local.the_row.coded };

    ghost view = { λ s. s.open.items };

    ghost invariant = { λ s. Numbers bytes_eq name_of_local s.table s.open.items };
}

/// The variable with the number, where it has the name.
fn by_number<'a>(open: &'a [Local], name: &Spelling, number: Option<u32>) -> Option<&'a Local>
    ensures { option_copied result ≡ by_number bytes_eq name_of_local name.now open.now number }
{
    match number {
        None => None,
        Some(i) => match open.get(i as usize) {
            None => None,
            Some(local) => {
                if local.name == *name {
                    Some(local)
                } else {
                    None
                }
            }
        },
    }
}

/// The table, with the number for the name.
pub(crate) fn numbered(
    alloc: Global,
    mut table: Table<Spelling>,
    name: &Spelling,
    number: u32,
) -> Result<Table<Spelling>, NoMemory>
    ensures { IfOk result (λ new. (q : List ℕ) → lookup (bytes_eq q) new ≡ cond (bytes_eq name.now q) (Some number) (lookup (bytes_eq q) table)) }
{
    table.put(Spelling::copy_of(alloc, name.as_slice())?, number)?;
    Ok(table)
}

fn pushed(
    alloc: Global,
    mut open: Vec<Local>,
    name: &Spelling,
    at: u32,
) -> Result<Vec<Local>, NoMemory>
    ensures { IfOk result (λ all. all.items ≡ open.items ++ record { name = name.now; at = at } ∷ []) }
{
    let name = Spelling::copy_of(alloc, name.as_slice())?;
    open.push(Local { name, at })?;
    Ok(open)
}

impl Scope {
    ghost use Rattle.std.specs.Prelude.{◌≡◌, ◌≤◌, [], ◌∷◌, ◌++◌, length, take, None, IfOk};
    ghost use Rattle.std.specs.Option.{option_copied};
    ghost use Rattle.std.specs.Str.{bytes_eq};
    ghost use Rattle.core_front.specs.Naming.{find, name_of_local, visible};

    pub fn new(alloc: Global) -> Scope
        ensures { result ≡ [] }
    {
        Scope {
            open: Vec::new(alloc),
            table: Table::new(alloc),
        }
    }

    /// The open variables, in the order of their declarations.
    pub fn as_slice(&self) -> &[Local]
        ensures { result.now ≡ self.now }
    {
        self.open.as_slice()
    }

    pub fn len(&self) -> usize
        ensures { result ≡ length self.now }
    {
        self.open.len()
    }

    fn find(&self, name: &Spelling) -> Option<&Local>
        ensures { option_copied result ≡ find bytes_eq name_of_local name.now self.now }
    {
        by_number(self.open.as_slice(), name, self.table.get(name))
    }

    /// Where the variable is declared that the name stands for, if it stands for one.
    pub fn visible(&self, name: &Spelling) -> Option<u32>
        ensures { result ≡ visible name.now self.now }
    {
        match self.find(name) {
            None => None,
            Some(local) => Some(local.at),
        }
    }

    /// These variables and one more, whose name stands for none of them.
    pub fn with(self, alloc: Global, name: &Name, at: u32) -> Result<Scope, NoMemory>
        requires { visible name.now.spelling self ≡ None }
        ensures { IfOk result (λ all. all ≡ self ++ record { name = name.now.spelling; at = at } ∷ []) }
    {
        let Scope { open, table } = self;
        let Ok(number) = u32::try_from(open.len()) else {
            return Err(NoMemory);
        };
        let table = numbered(alloc, table, &name.spelling, number)?;
        let open = pushed(alloc, open, &name.spelling, at)?;
        Ok(Scope { open, table })
    }

    /// Ends the block that declares the variables from the one with the number on.
    pub fn leave(&mut self, start: usize)
        ensures { self.new ≡ take start self.old }
    {
        self.open.truncate(start);
    }
}

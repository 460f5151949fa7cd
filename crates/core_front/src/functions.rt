// The functions of a program, and which of them a name stands for.
ghost use Rattle.std.specs.Prelude.{◌≡◌, ℕ, List, [], ◌∷◌, ◌++◌, Some, cond, nat_eq, IfOk};
ghost use Rattle.std.specs.Map.{lookup};
ghost use Rattle.std.specs.Option.{option_copied};
ghost use Rattle.std.specs.Str.{bytes_eq};
ghost use Rattle.core_front.specs.Naming.{by_number, name_of, place_of};

use crate::Function;
use crate::scope::numbered;
use core_tree::Table;
use dc_ast::Spelling;
use dc_types::NoMemory;
use std::alloc::Global;
use std::marker::Model;

/// Functions in the order of the text. No two have one name, and none is declared where another is.
#[derive(Drop)]
pub struct Functions {
    all: Vec<Function>,
    names: Table<Spelling>,
    places: Table<u32>,
}

impl Model for Functions {
    ghost use Rattle.std.specs.Prelude.{List, nat_eq};
    ghost use Rattle.std.specs.Coded.{coded_list};
    ghost use Rattle.std.specs.Str.{bytes_eq};
    ghost use Rattle.core_front.specs.declared.built.Function.{Function as AFunction};
    ghost use Rattle.core_front.specs.contracts.built.Function as a_function;
    ghost use Rattle.core_front.specs.Naming.{Numbers, name_of, place_of};

    ghost Value = { List AFunction };

    ghost coded = { coded_list a_function.the_row.coded };

    ghost view = { λ f. f.all.items };

    ghost invariant = { λ f. Numbers bytes_eq name_of f.names f.all.items × Numbers nat_eq place_of f.places f.all.items };
}

/// The function with the number, where it has the name.
fn by_number<'a>(all: &'a [Function], name: &Spelling, number: Option<u32>) -> Option<&'a Function>
    ensures { option_copied result ≡ by_number bytes_eq name_of name.now all.now number }
{
    match number {
        None => None,
        Some(i) => match all.get(i as usize) {
            None => None,
            Some(function) => {
                if function.name.spelling == *name {
                    Some(function)
                } else {
                    None
                }
            }
        },
    }
}

/// The function with the number, where it is declared at the offset.
fn by_place(all: &[Function], at: u32, number: Option<u32>) -> Option<&Function>
    ensures { option_copied result ≡ by_number nat_eq place_of at all.now number }
{
    match number {
        None => None,
        Some(i) => match all.get(i as usize) {
            None => None,
            Some(function) => {
                if function.at == at {
                    Some(function)
                } else {
                    None
                }
            }
        },
    }
}

/// The table, with the number for the place.
fn placed(mut table: Table<u32>, at: u32, number: u32) -> Result<Table<u32>, NoMemory>
    ensures { IfOk result (λ new. (q : ℕ) → lookup (nat_eq q) new ≡ cond (nat_eq at q) (Some number) (lookup (nat_eq q) table)) }
{
    table.put(at, number)?;
    Ok(table)
}

fn pushed(mut all: Vec<Function>, function: Function) -> Result<Vec<Function>, NoMemory>
    ensures { IfOk result (λ new. new.items ≡ all.items ++ function ∷ []) }
{
    all.push(function)?;
    Ok(all)
}

impl Functions {
    ghost use Rattle.std.specs.Prelude.{◌≡◌, [], ◌∷◌, ◌++◌, None, nat_eq, IfOk};
    ghost use Rattle.std.specs.Option.{option_copied};
    ghost use Rattle.core_front.specs.Naming.{Apart, named, function_at, name_of, place_of};

    pub fn new(alloc: Global) -> Functions
        ensures { result ≡ [] }
    {
        Functions {
            all: Vec::new(alloc),
            names: Table::new(alloc),
            places: Table::new(alloc),
        }
    }

    pub fn as_slice(&self) -> &[Function]
        ensures { result.now ≡ self.now }
    {
        self.all.as_slice()
    }

    /// The function that the name stands for.
    pub fn named(&self, name: &Spelling) -> Option<&Function>
        ensures { option_copied result ≡ named name.now self.now }
    {
        by_number(self.all.as_slice(), name, self.names.get(name))
    }

    /// The function that is declared at the offset.
    pub fn at(&self, at: u32) -> Option<&Function>
        ensures { option_copied result ≡ function_at at self.now }
    {
        by_place(self.all.as_slice(), at, self.places.get(&at))
    }

    /// No two of the functions are declared at one offset.
    pub fn places_differ(&self)
        ensures { Apart self.now }
    {
        let _count = self.all.len();
    }

    /// These functions and one more, with a name and a place of its own.
    pub fn with(self, alloc: Global, function: Function) -> Result<Functions, NoMemory>
        requires name { named function.name.spelling self ≡ None }
        requires place { function_at function.at self ≡ None }
        ensures { IfOk result (λ all. all ≡ self ++ function ∷ []) }
    {
        let Functions { all, names, places } = self;
        let Ok(number) = u32::try_from(all.len()) else {
            return Err(NoMemory);
        };
        let names = numbered(alloc, names, &function.name.spelling, number)?;
        let places = placed(places, function.at, number)?;
        let all = pushed(all, function)?;
        Ok(Functions { all, names, places })
    }
}

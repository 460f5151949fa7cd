// What the names in a function stand for.
ghost use Rattle.std.specs.Prelude.{◌≡◌, ℕ, ◌+◌, ◌<◌, ◌≤◌, ◌^◌, length, IfOk, OnOk};
ghost use Rattle.std.specs.Map.{lookup};
ghost use Rattle.dc_types.specs.declared.place.Place.{Place as Spot};
ghost use Rattle.dc_types.specs.Same as same;
ghost use Rattle.core_tree.specs.Typed.{variables_of};
ghost use Rattle.core_lower.specs.Lowered.{found_from, variable_places, body_places};
ghost use Rattle.core_lower.specs.Choice.{else_found};

use core_tree::{Body, Table, Variable};
use dc_types::{NoMemory, Place, copy_place};
use std::alloc::Global;

/// The variables get the numbers from `first` on, in the place of those that they had. Of two at one place the first
/// counts, so the last one is put first.
fn number_variables(
    alloc: Global,
    table: &mut Table<Place>,
    variables: &[Variable],
    first: u32,
) -> Result<(), NoMemory>
    requires { first + length variables.now < 2 ^ 32 }
    ensures { OnOk result ((q : Spot) → lookup (same.place q) table.new ≡ else_found (found_from first q (variable_places variables.now)) (lookup (same.place q) table.old)) }
{
    let mut i = variables.len();
    while 0 < i {
        i -= 1;
        table.put(copy_place(alloc, &variables[i].place)?, first + i as u32)?;
    }
    Ok(())
}

/// The slots of a function's variables: the parameters in their order, and behind them the others.
pub fn slots_of(alloc: Global, f: &Body) -> Result<Table<Place>, NoMemory>
    requires { length f.now.params + length f.now.locals < 2 ^ 32 }
    ensures { IfOk result (λ table. (q : Spot) → lookup (same.place q) table ≡ found_from 0 q (variable_places (variables_of f.now))) }
{
    let mut table = Table::new(alloc);
    let params = f.params.as_slice();
    number_variables(alloc, &mut table, f.locals.as_slice(), params.len() as u32)?;
    number_variables(alloc, &mut table, params, 0)?;
    Ok(table)
}

/// The numbers of the bodies' functions.
pub fn numbers_of(alloc: Global, bodies: &[Body]) -> Result<Table<Place>, NoMemory>
    ensures { IfOk result (λ table. (q : Spot) → lookup (same.place q) table ≡ found_from 0 q (body_places bodies.now)) }
{
    let mut table = Table::new(alloc);
    let mut i = bodies.len();
    while 0 < i {
        i -= 1;
        let Ok(number) = u32::try_from(i) else {
            return Err(NoMemory);
        };
        table.put(copy_place(alloc, &bodies[i].place)?, number)?;
    }
    Ok(table)
}

//! Names: what they stand for in scopes, units and types, the values that they name, the instances
//! of templates, and the texts in which types and values are shown.
#![tactic(auto)]

mod answers;
mod instances;
mod names;
mod shown;
mod taken;
mod trying;
mod values;
mod wheres;

pub use answers::{Want, answered, evaluated};
pub use instances::{
    constraint_holds, constraint_of, converted, instance_of, instance_symbol, name_instance,
    symbol_arg, variable_value,
};
pub use names::{
    Property, Sought, finished, look, look_within, named, package_end, qualified,
    rows_symbol_within, type_property,
};
pub use shown::{text_of, value_text};
pub use taken::{check_storage, own_env, trial_unit};
pub use trying::{guarded, push_names, settled, type_has};
pub use values::{field, implicit_this, this, value};
pub use wheres::{Resolved, here, sought_of};

// Properties of values (D specification, "Properties").
use dc_form::{add_number, as_slice, bare};
use dc_model::{Stop, Symbol, World};
use dc_names::{Property, Sought, type_property};
use dc_tree::{Range, Tree, TreeForm, TreeId, Type, TypeId, Where};

/// `value.name` that is no member of a struct, or rule 5.
pub(crate) fn value_member(
    w: &mut World,
    base: TreeId,
    word: Property,
    sought: Sought,
    at: Where,
) -> Result<Symbol, Stop> {
    let of = w.pool.trees.get(base).of;
    let element = w.pool.types.element(of);
    match (word, element) {
        (Property::Length, Some(_)) => Ok(Symbol::Tree(length(w, base, at)?)),
        (Property::Dup, Some(element)) => {
            let to = w.pool.types.number(Type::Slice(element))?;
            Ok(Symbol::Tree(duplicate(w, base, to, true, at)?))
        }
        (Property::Idup, Some(element)) if element == TypeId::CHAR => {
            Ok(Symbol::Tree(duplicate(w, base, TypeId::STRING, false, at)?))
        }
        (Property::Init, _) | (Property::Min, _) | (Property::Max, _) => {
            match type_property(w, of, sought.name)? {
                Some(found) => Ok(found),
                None => w.refuse(5, sought.at, Some(sought.name)),
            }
        }
        _ => w.refuse(5, sought.at, Some(sought.name)),
    }
}

fn length(w: &mut World, base: TreeId, at: Where) -> Result<TreeId, Stop> {
    let of = w.pool.trees.get(base).of;
    match w.pool.types.fixed_length(of) {
        Some(len) => {
            let range = Range::alone(i128::from(len));
            add_number(
                w,
                TreeForm::FixedLength(base, len),
                TypeId::ULONG,
                at,
                range,
                None,
            )
        }
        None => Ok(
            w.pool
                .trees
                .add(bare(TreeForm::Length(base), TypeId::ULONG, at))?,
        ),
    }
}

fn duplicate(
    w: &mut World,
    base: TreeId,
    to: TypeId,
    grows: bool,
    at: Where,
) -> Result<TreeId, Stop> {
    let slice = as_slice(w, base)?;
    let tree = Tree {
        ..bare(TreeForm::Duplicate(slice, grows), to, at)
    };
    Ok(w.pool.trees.add(tree)?)
}

// Constants as words.
ghost use Rattle.std.specs.Prelude.{◌≡◌};
ghost use Rattle.dc_code.specs.Numbers.{word_of};
ghost use Rattle.core_tree.specs.Values.{number_of_tree};
ghost use Rattle.core_lower_expr.specs.Lowered.{kind_of};

use dc_types::{CTree, Kind, Ty};

/// The number of a constant, or 0 for one that is none.
pub fn number(tree: &CTree) -> i128
    ensures { result ≡ number_of_tree tree.now }
{
    match tree {
        CTree::Num(n) => *n,
        CTree::List(_) => 0,
    }
}

/// The word that a number is stored as.
pub fn word(v: i128) -> u64
    ensures { result ≡ word_of v }
{
    (v.cast_unsigned() & 18446744073709551615) as u64
}

/// The kind of a number's type.
pub fn kind_of(ty: &Ty) -> Kind
    ensures { result ≡ kind_of ty.now }
{
    match ty {
        Ty::Int(kind) => *kind,
        _ => Kind::I32,
    }
}

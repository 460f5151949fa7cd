// Key texts: the text of a template's arguments, which no other arguments have.
ghost use Rattle.std.specs.Prelude.{◌≡◌, ◌++◌, ◌∷◌, [], IfOk, map, List};
ghost use Rattle.dc_key.specs.declared.arg.Arg.{Arg as AnyArg};
ghost use Rattle.std.specs.Fmt.{decimal, signed_decimal};
ghost use Rattle.dc_key.specs.KeyTexts as keys;
ghost use Rattle.dc_types.specs.declared.ty.Ty.TheViews.{out-Ty};
ghost use Rattle.dc_types.specs.declared.constant.CTree.TheViews.{out-CTree};

use crate::{Arg, Args};
use dc_types::{CTree, Const, Kind, NoMemory, Place, Step, Text, Ty};
use std::alloc::{AllocError, Global};

fn put_number(alloc: Global, out: &mut Text, n: u64) -> Result<(), AllocError>
    ensures { IfOk result (λ _. out.new ≡ out.old ++ decimal n) }
{
    let text = n.to_string(alloc)?;
    out.append(text.as_bytes())
}

fn put_signed(alloc: Global, out: &mut Text, n: i128) -> Result<(), AllocError>
    ensures { IfOk result (λ _. out.new ≡ out.old ++ signed_decimal n) }
{
    let text = n.to_string(alloc)?;
    out.append(text.as_bytes())
}

fn put_step(alloc: Global, out: &mut Text, step: &Step) -> Result<(), AllocError>
    ensures { IfOk result (λ _. out.new ≡ out.old ++ keys.step_text step.now) }
{
    match step {
        Step::At(n) => {
            out.push(b':')?;
            put_number(alloc, out, *n as u64)
        }
        Step::Round(n) => {
            out.push(b'#')?;
            put_number(alloc, out, *n as u64)
        }
        Step::With(key) => {
            out.append(b"!(")?;
            out.append(key.as_slice())?;
            out.append(b")")
        }
    }
}

fn put_place(alloc: Global, out: &mut Text, place: &Place) -> Result<(), AllocError>
    ensures { IfOk result (λ _. out.new ≡ out.old ++ keys.place_text place.now) }
{
    out.append(place.module.as_slice())?;
    put_steps(alloc, out, place.steps.as_slice())
}

fn put_steps(alloc: Global, out: &mut Text, steps: &[Step]) -> Result<(), AllocError>
    ensures { IfOk result (λ _. out.new ≡ out.old ++ keys.steps_text steps.now) }
{
    for step in steps {
        put_step(alloc, out, step)?;
    }
    Ok(())
}

pub fn kind_text(kind: Kind) -> &'static [u8]
    ensures { result.now ≡ keys.kind_text kind }
{
    match kind {
        Kind::Bool => b"bool",
        Kind::I8 => b"byte",
        Kind::U8 => b"ubyte",
        Kind::I16 => b"short",
        Kind::U16 => b"ushort",
        Kind::I32 => b"int",
        Kind::U32 => b"uint",
        Kind::I64 => b"long",
        Kind::U64 => b"ulong",
        Kind::Char => b"char",
    }
}

fn put_length(alloc: Global, out: &mut Text, n: u32) -> Result<(), AllocError>
    ensures { IfOk result (λ _. out.new ≡ out.old ++ 91 ∷ (decimal n ++ 93 ∷ [])) }
{
    out.push(b'[')?;
    put_number(alloc, out, n as u64)?;
    out.append(b"]")
}

fn put_ty(alloc: Global, out: &mut Text, ty: &Ty) -> Result<(), AllocError>
    ensures { IfOk result (λ _. out.new ≡ out.old ++ keys.ty_text ty.now) }
{
    match ty {
        Ty::Void => out.append(b"void"),
        Ty::Int(kind) => out.append(kind_text(*kind)),
        Ty::Fixed(of, n) => {
            put_ty(alloc, out, of.get())?;
            put_length(alloc, out, *n)
        }
        Ty::Slice(of) => {
            put_ty(alloc, out, of.get())?;
            out.append(b"[]")
        }
        Ty::Str => out.append(b"string"),
        Ty::Struct(at) => put_place(alloc, out, at),
        Ty::Enum(at, base) => {
            out.push(b'$')?;
            put_place(alloc, out, at)?;
            out.push(b'<')?;
            put_ty(alloc, out, base.get())?;
            out.append(b">")
        }
        Ty::NullLit => out.append(b"null"),
        Ty::EmptyLit => out.append(b"[]"),
    }
}

#[cycle(put_tree)]
fn put_tree(alloc: Global, out: &mut Text, tree: &CTree) -> Result<(), AllocError>
    ensures { IfOk result (λ _. out.new ≡ out.old ++ keys.tree_text tree.now) }
{
    match tree {
        CTree::Num(n) => put_signed(alloc, out, *n),
        CTree::List(trees) => {
            out.push(b'[')?;
            put_trees(alloc, out, trees.as_slice())?;
            out.append(b"]")
        }
    }
}

#[cycle(put_tree)]
fn put_trees(alloc: Global, out: &mut Text, trees: &[CTree]) -> Result<(), AllocError>
    ensures { IfOk result (λ _. out.new ≡ out.old ++ keys.joined (44 ∷ []) (map keys.tree_text trees.now)) }
{
    let [first, rest @ ..] = trees else {
        return Ok(());
    };
    put_tree(alloc, out, first)?;
    for tree in rest {
        out.push(b',')?;
        put_tree(alloc, out, tree)?;
    }
    Ok(())
}

/// How a value is written.
#[derive(Clone, Copy, PartialEq, Eq)]
enum Form {
    ANumber,
    AString,
    AList,
    AStruct,
}

fn form_of(ty: &Ty) -> Form
    ensures { result ≡ keys.form_of ty.now }
{
    match ty {
        Ty::Str => Form::AString,
        Ty::Fixed(_, _) | Ty::Slice(_) | Ty::NullLit | Ty::EmptyLit => Form::AList,
        Ty::Struct(_) => Form::AStruct,
        Ty::Enum(_, base) => form_of(base.get()),
        Ty::Void | Ty::Int(_) => Form::ANumber,
    }
}

/// The byte that a part of a string is.
pub fn byte(tree: &CTree) -> u8
    ensures { result ≡ keys.byte tree.now }
{
    match tree {
        CTree::Num(n) => u8::try_from(*n).unwrap_or(0),
        CTree::List(_) => 0,
    }
}

fn put_string(alloc: Global, out: &mut Text, bytes: &[CTree]) -> Result<(), AllocError>
    ensures { IfOk result (λ _. out.new ≡ out.old ++ keys.string_text bytes.now) }
{
    out.push(b'"')?;
    put_number(alloc, out, bytes.len() as u64)?;
    out.push(b':')?;
    for tree in bytes {
        out.push(byte(tree))?;
    }
    Ok(())
}

fn put_list(
    alloc: Global,
    out: &mut Text,
    opener: u8,
    trees: &[CTree],
    closer: u8,
) -> Result<(), AllocError>
    ensures { IfOk result (λ _. out.new ≡ out.old ++ keys.list_text opener closer trees.now) }
{
    out.push(opener)?;
    put_trees(alloc, out, trees)?;
    out.push(closer)?;
    Ok(())
}

fn put_value(alloc: Global, out: &mut Text, value: &Const) -> Result<(), AllocError>
    ensures { IfOk result (λ _. out.new ≡ out.old ++ keys.value_text value.now) }
{
    match &value.tree {
        CTree::Num(n) => put_signed(alloc, out, *n),
        CTree::List(trees) => match form_of(&value.ty) {
            Form::AString => put_string(alloc, out, trees.as_slice()),
            Form::AStruct => put_list(alloc, out, b'{', trees.as_slice(), b'}'),
            Form::AList | Form::ANumber => put_list(alloc, out, b'[', trees.as_slice(), b']'),
        },
    }
}

fn put_arg(alloc: Global, out: &mut Text, arg: &Arg) -> Result<(), AllocError>
    ensures { IfOk result (λ _. out.new ≡ out.old ++ keys.arg_text arg.now) }
{
    match arg {
        Arg::OfType(ty) => put_ty(alloc, out, ty),
        Arg::OfValue(value) => {
            put_ty(alloc, out, &value.ty)?;
            out.push(b'=')?;
            put_value(alloc, out, value)
        }
        Arg::OfSymbol(at) => {
            out.push(b'&')?;
            put_place(alloc, out, at)
        }
    }
}

fn put_args(alloc: Global, out: &mut Text, args: &[Arg]) -> Result<(), AllocError>
    ensures { IfOk result (λ _. out.new ≡ out.old ++ keys.text args.now) }
{
    let [first, rest @ ..] = args else {
        return Ok(());
    };
    put_arg(alloc, out, first)?;
    for arg in rest {
        out.append(b", ")?;
        put_arg(alloc, out, arg)?;
    }
    Ok(())
}

/// The key text of a template's arguments: that of each, joined by `, `. A type is written as in a program, where a
/// struct is its place, and an enum `$`, its place, and its base in `<` and `>`; a value as its type, `=` and its form;
/// a symbol as `&` and its place. Of the arguments that meet the condition no others have the same text.
pub fn key_text(alloc: Global, args: &Args) -> Result<Text, NoMemory>
    ensures text { IfOk result (λ key. key ≡ keys.text args.now) }
    ensures one { IfOk result (λ key. (other : List AnyArg) → keys.Meets args.now → keys.Meets other → keys.text other ≡ key → other ≡ args.now) }
{
    let mut out = Text::new(alloc);
    put_args(alloc, &mut out, args.as_slice())?;
    Ok(out)
}

/// A law of the definition: equal key texts come from equal arguments alone.
pub fn key_laws()
    ensures { keys.OneKey }
{}

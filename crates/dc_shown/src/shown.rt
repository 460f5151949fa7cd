// The texts of types and values, as a program sees them.
ghost use Rattle.std.specs.Prelude.{◌≡◌, ◌++◌, ◌∷◌, [], ◌<◌, IfOk, map, drop};
ghost use Rattle.std.specs.Fmt.{decimal};
ghost use Rattle.dc_shown.specs.Shown as shown;
ghost use Rattle.dc_key.specs.KeyTexts as keys;
ghost use Rattle.dc_types.specs.declared.ty.Ty.TheViews.{out-Ty};
ghost use Rattle.dc_shown.specs.declared.shown.Piece.TheVariants as pieces;

use crate::Naming;
use dc_key::{Arg, Reader, args_in, byte, kind_text};
use dc_layout::Field;
use dc_types::{CTree, Const, Items, Kind, NoMemory, Place, Step, Text, Ty, copy_place};
use std::alloc::{AllocError, Global};

/// A piece of a text: bytes, or the name of a struct or enum, for which what is shown of it stands.
#[derive(Drop)]
enum Piece {
    Bytes(Text),
    Name(Place),
}

type Pieces = Items<Piece>;

fn say(alloc: Global, out: &mut Pieces, bytes: &[u8]) -> Result<(), AllocError>
    ensures { IfOk result (λ _. out.new ≡ out.old ++ shown.said bytes.now) }
{
    out.push(Piece::Bytes(Text::copy_of(alloc, bytes)?))?;
    Ok(())
}

fn say_name(alloc: Global, out: &mut Pieces, at: &Place) -> Result<(), AllocError>
    ensures { IfOk result (λ _. out.new ≡ out.old ++ pieces.Name at.now ∷ []) }
{
    out.push(Piece::Name(copy_place(alloc, at)?))?;
    Ok(())
}

fn say_length(alloc: Global, out: &mut Pieces, n: u32) -> Result<(), AllocError>
    ensures { IfOk result (λ _. out.new ≡ out.old ++ (shown.said (91 ∷ []) ++ shown.said (decimal n) ++ shown.said (93 ∷ []))) }
{
    say(alloc, out, b"[")?;
    let text = n.to_string(alloc)?;
    say(alloc, out, text.as_bytes())?;
    say(alloc, out, b"]")
}

fn say_ty(alloc: Global, out: &mut Pieces, ty: &Ty) -> Result<(), AllocError>
    ensures { IfOk result (λ _. out.new ≡ out.old ++ shown.of_ty ty.now) }
{
    match ty {
        Ty::Void => say(alloc, out, b"void"),
        Ty::Int(kind) => say(alloc, out, kind_text(*kind)),
        Ty::Fixed(of, n) => {
            say_ty(alloc, out, of.get())?;
            say_length(alloc, out, *n)
        }
        Ty::Slice(of) => {
            say_ty(alloc, out, of.get())?;
            say(alloc, out, b"[]")
        }
        Ty::Str => say(alloc, out, b"string"),
        Ty::Struct(at) => say_name(alloc, out, at),
        Ty::Enum(at, _) => say_name(alloc, out, at),
        Ty::NullLit => say(alloc, out, b"typeof(null)"),
        Ty::EmptyLit => say(alloc, out, b"void[]"),
    }
}

/// The type, or the base of an enum, also where that is one.
fn bare(ty: &Ty) -> &Ty
    ensures { result.now ≡ shown.bare ty.now }
{
    match ty {
        Ty::Enum(_, base) => bare(base.get()),
        _ => ty,
    }
}

fn is_char(ty: &Ty) -> bool
    ensures { result ≡ shown.is_char ty.now }
{
    matches!(ty, Ty::Int(Kind::Char))
}

fn hex_digit(n: u8) -> u8
    requires { n < 16 }
    ensures { result ≡ shown.hex_digit n }
{
    if n < 10 { b'0' + n } else { b'A' - 10 + n }
}

/// Whether the byte stands in a string as it is.
#[tactic(auto, unfolding(crate::specs::Shown::is_plain))]
fn is_plain(byte: u8) -> bool
    ensures { result ≡ shown.is_plain byte }
{
    32 <= byte && byte <= 126 && byte != b'"' && byte != b'\\'
}

fn put_byte(out: &mut Text, byte: u8) -> Result<(), AllocError>
    ensures { IfOk result (λ _. out.new ≡ out.old ++ shown.byte_text byte) }
{
    if is_plain(byte) {
        out.push(byte)?;
        return Ok(());
    }
    out.append(b"\\x")?;
    out.push(hex_digit(byte / 16))?;
    out.push(hex_digit(byte % 16))?;
    Ok(())
}

/// The bytes of a string, in quotes.
fn quoted(alloc: Global, trees: &[CTree]) -> Result<Text, AllocError>
    ensures { IfOk result (λ text. text ≡ shown.quoted (map keys.byte trees.now)) }
{
    let mut out = Text::new(alloc);
    out.push(b'"')?;
    for tree in trees {
        put_byte(&mut out, byte(tree))?;
    }
    out.push(b'"')?;
    Ok(out)
}

fn say_string(alloc: Global, out: &mut Pieces, trees: &[CTree]) -> Result<(), AllocError>
    ensures { IfOk result (λ _. out.new ≡ out.old ++ shown.said (shown.quoted (map keys.byte trees.now))) }
{
    let text = quoted(alloc, trees)?;
    say(alloc, out, text.as_slice())
}

/// A number of a type that is no enum.
fn say_number(alloc: Global, out: &mut Pieces, ty: &Ty, n: i128) -> Result<(), AllocError>
    ensures { IfOk result (λ _. out.new ≡ out.old ++ shown.said (shown.number_at (out-Ty ty.now) n)) }
{
    if let Ty::Int(Kind::Bool) = ty {
        return say(alloc, out, if n == 0 { b"false" } else { b"true" });
    }
    let text = n.to_string(alloc)?;
    say(alloc, out, text.as_bytes())
}

#[cycle(say_value)]
fn say_value<N: Naming>(
    alloc: Global,
    out: &mut Pieces,
    names: &N,
    tree: &CTree,
    ty: &Ty,
) -> Result<(), AllocError>
    ensures { IfOk result (λ _. out.new ≡ out.old ++ shown.of_tree (N.told names.now) ty.now tree.now) }
{
    match tree {
        CTree::Num(n) => say_number(alloc, out, bare(ty), *n),
        CTree::List(trees) => say_list(alloc, out, names, trees.as_slice(), bare(ty)),
    }
}

/// A list of a type that is no enum.
#[cycle(say_value)]
fn say_list<N: Naming>(
    alloc: Global,
    out: &mut Pieces,
    names: &N,
    trees: &[CTree],
    ty: &Ty,
) -> Result<(), AllocError>
    ensures { IfOk result (λ _. out.new ≡ out.old ++ shown.list_at (N.told names.now) (out-Ty ty.now) (map (shown.part (N.told names.now)) trees.now)) }
{
    match ty {
        Ty::Str => say_string(alloc, out, trees),
        Ty::Fixed(of, _) => say_array(alloc, out, names, trees, of.get()),
        Ty::Slice(of) => say_array(alloc, out, names, trees, of.get()),
        Ty::Struct(at) => {
            say_name(alloc, out, at)?;
            say(alloc, out, b"(")?;
            say_fields(alloc, out, names, trees, names.fields(at))?;
            say(alloc, out, b")")
        }
        _ => say_parts(alloc, out, names, trees, &Ty::Void),
    }
}

/// An array with elements of the type.
#[cycle(say_value)]
fn say_array<N: Naming>(
    alloc: Global,
    out: &mut Pieces,
    names: &N,
    trees: &[CTree],
    of: &Ty,
) -> Result<(), AllocError>
    ensures { IfOk result (λ _. out.new ≡ out.old ++ shown.array of.now (map (shown.part (N.told names.now)) trees.now)) }
{
    if is_char(of) {
        say_string(alloc, out, trees)
    } else {
        say_parts(alloc, out, names, trees, of)
    }
}

/// Values of one type, in brackets.
#[cycle(say_value)]
fn say_parts<N: Naming>(
    alloc: Global,
    out: &mut Pieces,
    names: &N,
    trees: &[CTree],
    of: &Ty,
) -> Result<(), AllocError>
    ensures { IfOk result (λ _. out.new ≡ out.old ++ shown.list (map (λ p. p.of_type of.now) (map (shown.part (N.told names.now)) trees.now))) }
{
    say(alloc, out, b"[")?;
    say_joined(alloc, out, names, trees, of)?;
    say(alloc, out, b"]")
}

/// Values of one type, with `, ` between each two.
#[cycle(say_value)]
fn say_joined<N: Naming>(
    alloc: Global,
    out: &mut Pieces,
    names: &N,
    trees: &[CTree],
    of: &Ty,
) -> Result<(), AllocError>
    ensures { IfOk result (λ _. out.new ≡ out.old ++ shown.joined (map (shown.of_tree (N.told names.now) of.now) trees.now)) }
{
    let [first, rest @ ..] = trees else {
        return Ok(());
    };
    say_value(alloc, out, names, first, of)?;
    for tree in rest {
        say(alloc, out, b", ")?;
        say_value(alloc, out, names, tree, of)?;
    }
    Ok(())
}

/// A value of the type of the first field.
#[cycle(say_value)]
fn say_field<N: Naming>(
    alloc: Global,
    out: &mut Pieces,
    names: &N,
    tree: &CTree,
    fields: &[Field],
) -> Result<(), AllocError>
    ensures { IfOk result (λ _. out.new ≡ out.old ++ shown.of_tree (N.told names.now) (shown.first_ty fields.now) tree.now) }
{
    match fields {
        [] => say_value(alloc, out, names, tree, &Ty::Void),
        [field, ..] => say_value(alloc, out, names, tree, &field.ty),
    }
}

/// All but the first.
fn others(fields: &[Field]) -> &[Field]
    ensures { result.now ≡ drop 1 fields.now }
{
    match fields {
        [] => fields,
        [_, rest @ ..] => rest,
    }
}

/// Values of the types of the fields.
#[cycle(say_value)]
fn say_fields<N: Naming>(
    alloc: Global,
    out: &mut Pieces,
    names: &N,
    trees: &[CTree],
    fields: &[Field],
) -> Result<(), AllocError>
    ensures { IfOk result (λ _. out.new ≡ out.old ++ shown.joined (shown.by_fields fields.now (map (shown.part (N.told names.now)) trees.now))) }
{
    let [first, rest @ ..] = trees else {
        return Ok(());
    };
    say_field(alloc, out, names, first, fields)?;
    let mut left = others(fields);
    for tree in rest {
        say(alloc, out, b", ")?;
        say_field(alloc, out, names, tree, left)?;
        left = others(left);
    }
    Ok(())
}

fn symbol<'a, N: Naming>(names: &'a N, at: &'a Place) -> &'a [u8]
    ensures { result.now ≡ shown.symbol (N.told names.now) at.now at.now.steps }
{
    match at.steps.as_slice() {
        [] => at.module.as_slice(),
        [_, ..] => names.name(at),
    }
}

fn say_arg<N: Naming>(
    alloc: Global,
    out: &mut Pieces,
    names: &N,
    arg: &Arg,
) -> Result<(), AllocError>
    ensures { IfOk result (λ _. out.new ≡ out.old ++ shown.of_arg (N.told names.now) arg.now) }
{
    match arg {
        Arg::OfType(ty) => say_ty(alloc, out, ty),
        Arg::OfValue(value) => say_value(alloc, out, names, &value.tree, &value.ty),
        Arg::OfSymbol(at) => say(alloc, out, symbol(names, at)),
    }
}

fn say_args<N: Naming>(
    alloc: Global,
    out: &mut Pieces,
    names: &N,
    args: &[Arg],
) -> Result<(), AllocError>
    ensures { IfOk result (λ _. out.new ≡ out.old ++ shown.joined (map (shown.of_arg (N.told names.now)) args.now)) }
{
    let [first, rest @ ..] = args else {
        return Ok(());
    };
    say_arg(alloc, out, names, first)?;
    for arg in rest {
        say(alloc, out, b", ")?;
        say_arg(alloc, out, names, arg)?;
    }
    Ok(())
}

fn step_key(step: &Step) -> &[u8]
    ensures { result.now ≡ shown.step_key step.now }
{
    match step {
        Step::With(key) => key.as_slice(),
        Step::At(_) | Step::Round(_) => b"",
    }
}

/// The key text in the last step.
fn last_key(steps: &[Step]) -> &[u8]
    ensures { result.now ≡ shown.last_key steps.now }
{
    match steps.last() {
        Some(step) => step_key(step),
        None => b"",
    }
}

/// The arguments of the instance at the place.
fn arguments<N: Naming>(alloc: Global, names: &N, at: &Place) -> Result<Pieces, AllocError>
    ensures { IfOk result (λ pieces. pieces ≡ shown.arguments (N.told names.now) at.now) }
{
    let mut key = Reader::new(last_key(at.steps.as_slice()));
    let args = args_in(alloc, &mut key)?;
    let mut out = Items::new(alloc);
    say_args(alloc, &mut out, names, args.as_slice())?;
    Ok(out)
}

/// What is shown of the struct or enum at the place, where at most so many instances are named in one another.
#[cycle(put_name)]
fn put_name<N: Naming>(
    alloc: Global,
    out: &mut Text,
    names: &N,
    at: &Place,
    depth: u32,
) -> Result<(), AllocError>
    ensures { IfOk result (λ _. out.new ≡ out.old ++ shown.shown (N.told names.now) depth at.now) }
{
    out.append(names.name(at))?;
    if depth == 0 {
        return Ok(());
    }
    if !names.is_instance(at) {
        return Ok(());
    }
    let pieces = arguments(alloc, names, at)?;
    out.append(b"!(")?;
    put_pieces(alloc, out, names, pieces.as_slice(), depth - 1)?;
    out.append(b")")
}

#[cycle(put_name)]
fn put_pieces<N: Naming>(
    alloc: Global,
    out: &mut Text,
    names: &N,
    pieces: &[Piece],
    depth: u32,
) -> Result<(), AllocError>
    ensures { IfOk result (λ _. out.new ≡ out.old ++ shown.text (shown.shown (N.told names.now) depth) pieces.now) }
{
    for piece in pieces {
        match piece {
            Piece::Bytes(bytes) => out.append(bytes.as_slice())?,
            Piece::Name(at) => put_name(alloc, out, names, at, depth)?,
        }
    }
    Ok(())
}

/// No program has more instances.
const DEPTH: u32 = 65536;

#[tactic(auto, unfolding(crate::specs::Shown::limit))]
fn text_of<N: Naming>(alloc: Global, names: &N, pieces: &[Piece]) -> Result<Text, AllocError>
    ensures { IfOk result (λ text. text ≡ shown.text (shown.shown (N.told names.now) shown.limit) pieces.now) }
{
    let mut out = Text::new(alloc);
    put_pieces(alloc, &mut out, names, pieces, DEPTH)?;
    Ok(out)
}

/// The text that `stringof` gives for a type (D specification, "Properties", ".stringof Property"): the word of a basic
/// type or `string`, `T[]` and `T[n]`, and the name of a struct or enum, of an instance with its arguments, as `S!(A, B)`.
/// An argument is a type by this text, a value as `value_text` gives it, or the name of a declaration or module. Past 65,536
/// instances that are named in one another, more than a program has, one is named without its arguments.
pub fn stringof_text<N: Naming>(alloc: Global, ty: &Ty, names: &N) -> Result<Text, NoMemory>
    ensures { IfOk result (λ text. text ≡ shown.stringof (N.told names.now) ty.now) }
{
    let mut out = Items::new(alloc);
    say_ty(alloc, &mut out, ty)?;
    Ok(text_of(alloc, names, out.as_slice())?)
}

/// The text of a value: a number in decimal, a `bool` as its word, a string or an array of `char` in `"`, where bytes outside
/// 32 to 126, `"` and `\` are written as `\xHH`, another array as `[a, b]`, and a struct as its type's text and its fields in
/// `(` and `)`. A value of an enum is written as one of its base.
pub fn value_text<N: Naming>(alloc: Global, value: &Const, names: &N) -> Result<Text, NoMemory>
    ensures { IfOk result (λ text. text ≡ shown.value_text (N.told names.now) value.now) }
{
    let mut out = Items::new(alloc);
    say_value(alloc, &mut out, names, &value.tree, &value.ty)?;
    Ok(text_of(alloc, names, out.as_slice())?)
}

/// Laws of these texts: every limit on how many instances are named in one another gives the same text where there are
/// no more, and the arguments of an instance are those whose key text stands in the last step of its place.
pub fn shown_laws()
    ensures settles { shown.Settles }
    ensures arguments { shown.ShowsArguments }
{}

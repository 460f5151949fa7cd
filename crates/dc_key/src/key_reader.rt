// Reading of key texts.
ghost use Rattle.std.specs.Prelude.{◌≡◌, IfOk, [], length, map, List};
ghost use Rattle.dc_key.specs.declared.arg.Arg.{Arg as AnyArg};
ghost use Rattle.dc_key.specs.KeyTexts as keys;
ghost use Rattle.dc_key.specs.KeyReading as reading;

use crate::key_scan::{digits, key_len, name, number_of};
use crate::{Arg, Args};
use dc_types::{CTree, Const, Items, Kind, NoMemory, Place, Step, Steps, Text, Ty};
use sqlite_items::{Boxed, Items as Children};
use std::alloc::{AllocError, Global};
use std::marker::Model;

/// What is left of a text, which contracts see as its bytes.
#[derive(Drop)]
pub struct Reader<'a> {
    rest: &'a [u8],
}

impl<'a> Model for Reader<'a> {
    ghost use Rattle.std.specs.Prelude.{List, ℕ};

    ghost Value = { List ℕ };

    ghost view = { λ r. r.rest.now };
}

impl<'a> Reader<'a> {
    ghost use Rattle.std.specs.Prelude.{◌≡◌, drop, take, length, IfOk};
    ghost use Rattle.dc_key.specs.KeyTexts as keys;
    ghost use Rattle.dc_key.specs.KeyReading as reading;

    pub fn new(rest: &'a [u8]) -> Reader<'a>
        ensures { result ≡ rest.now }
    {
        Reader { rest }
    }

    fn len(&self) -> usize
        ensures { result ≡ length self.now }
    {
        self.rest.len()
    }

    fn first(&self) -> u8
        ensures { result ≡ reading.first self.now }
    {
        match self.rest {
            [] => 0,
            [b, ..] => *b,
        }
    }

    fn pass(&mut self, n: usize)
        ensures { self.new ≡ drop n self.old }
    {
        self.rest = &self.rest[n.min(self.rest.len())..];
    }

    fn number(&mut self) -> u128
        ensures value { result ≡ (reading.number self.old).0 }
        ensures rest { self.new ≡ (reading.number self.old).1 }
    {
        let n = digits(self.rest);
        let value = number_of(&self.rest[..n]);
        self.rest = &self.rest[n..];
        value
    }

    fn take(&mut self, n: usize) -> &'a [u8]
        ensures value { result.now ≡ take n self.old }
        ensures rest { self.new ≡ drop n self.old }
    {
        let n = n.min(self.rest.len());
        let taken = &self.rest[..n];
        self.rest = &self.rest[n..];
        taken
    }

    fn name(&mut self, alloc: Global) -> Result<Text, AllocError>
        ensures value { IfOk result (λ name. name ≡ take (reading.front keys.is_name_byte self.old) self.old) }
        ensures rest { IfOk result (λ _. self.new ≡ drop (reading.front keys.is_name_byte self.old) self.old) }
    {
        let n = name(self.rest);
        let text = Text::copy_of(alloc, &self.rest[..n])?;
        self.rest = &self.rest[n..];
        Ok(text)
    }

    fn key(&mut self, alloc: Global) -> Result<Text, AllocError>
        ensures value { IfOk result (λ key. key ≡ (reading.key_in self.old).0) }
        ensures rest { IfOk result (λ _. self.new ≡ (reading.key_in self.old).1) }
    {
        let n = key_len(self.rest);
        let text = Text::copy_of(alloc, &self.rest[..n])?;
        self.rest = &self.rest[n..];
        self.pass(1);
        Ok(text)
    }
}

fn small(n: u128) -> u32
    ensures { result ≡ reading.small n }
{
    u32::try_from(n).unwrap_or(0)
}

fn plus(n: u128) -> i128
    ensures { result ≡ reading.plus n }
{
    if n < 1 << 127 { n as i128 } else { 0 }
}

fn minus(n: u128) -> i128
    ensures { result ≡ reading.minus n }
{
    if n == 0 {
        0
    } else if n - 1 < 1 << 127 {
        -1 - (n - 1) as i128
    } else {
        0
    }
}

fn signed(from: &mut Reader<'_>) -> i128
    ensures { (result, from.new) ≡ reading.signed from.old }
{
    if from.first() == b'-' {
        from.pass(1);
        minus(from.number())
    } else {
        plus(from.number())
    }
}

fn step_in(alloc: Global, from: &mut Reader<'_>) -> Result<Step, AllocError>
    ensures { IfOk result (λ step. (step, from.new) ≡ reading.step_in from.old) }
{
    match from.first() {
        b':' => {
            from.pass(1);
            Ok(Step::At(small(from.number())))
        }
        b'#' => {
            from.pass(1);
            Ok(Step::Round(small(from.number())))
        }
        _ => {
            from.pass(2);
            Ok(Step::With(from.key(alloc)?))
        }
    }
}

fn starts_step(b: u8) -> bool
    ensures { result ≡ reading.starts_step b }
{
    b == b':' || b == b'#' || b == b'!'
}

fn steps_in(alloc: Global, from: &mut Reader<'_>) -> Result<Steps, AllocError>
    ensures { IfOk result (λ steps. (steps, from.new) ≡ reading.steps_in from.old) }
{
    let mut steps = Items::new(alloc);
    for _ in 0..from.len() {
        if !starts_step(from.first()) {
            break;
        }
        steps.push(step_in(alloc, from)?)?;
    }
    Ok(steps)
}

fn place_in(alloc: Global, from: &mut Reader<'_>) -> Result<Place, AllocError>
    ensures { IfOk result (λ place. (place, from.new) ≡ reading.place_in from.old) }
{
    let module = from.name(alloc)?;
    let steps = steps_in(alloc, from)?;
    Ok(Place { module, steps })
}

#[tactic(auto, unfolding(crate::specs::KeyReading::kind_word))]
fn kind_word(name: &[u8]) -> Option<Kind>
    ensures { result ≡ reading.kind_word name.now }
{
    if name == b"bool".as_slice() {
        Some(Kind::Bool)
    } else if name == b"byte".as_slice() {
        Some(Kind::I8)
    } else if name == b"ubyte".as_slice() {
        Some(Kind::U8)
    } else if name == b"short".as_slice() {
        Some(Kind::I16)
    } else if name == b"ushort".as_slice() {
        Some(Kind::U16)
    } else if name == b"int".as_slice() {
        Some(Kind::I32)
    } else if name == b"uint".as_slice() {
        Some(Kind::U32)
    } else if name == b"long".as_slice() {
        Some(Kind::I64)
    } else if name == b"ulong".as_slice() {
        Some(Kind::U64)
    } else if name == b"char".as_slice() {
        Some(Kind::Char)
    } else {
        None
    }
}

#[tactic(auto, unfolding(crate::specs::KeyReading::word))]
fn word(name: &[u8]) -> Ty
    ensures { result ≡ reading.word name.now }
{
    if name == b"void".as_slice() {
        Ty::Void
    } else if name == b"string".as_slice() {
        Ty::Str
    } else {
        match kind_word(name) {
            Some(kind) => Ty::Int(kind),
            None => Ty::NullLit,
        }
    }
}

fn named(place: Place) -> Ty
    ensures { result ≡ reading.named place }
{
    if place.steps.len() == 0 {
        word(place.module.as_slice())
    } else {
        Ty::Struct(place)
    }
}

#[cycle(type_in)]
fn leaf_in(alloc: Global, depth: usize, from: &mut Reader<'_>) -> Result<Ty, AllocError>
    ensures { IfOk result (λ ty. (ty, from.new) ≡ reading.leaf_in (reading.type_in depth) from.old) }
{
    match from.first() {
        b'$' => {
            from.pass(1);
            let place = place_in(alloc, from)?;
            from.pass(1);
            let base = Boxed::new(alloc, type_in(alloc, depth, from)?)?;
            from.pass(1);
            Ok(Ty::Enum(place, base))
        }
        b'[' => {
            from.pass(2);
            Ok(Ty::EmptyLit)
        }
        _ => Ok(named(place_in(alloc, from)?)),
    }
}

fn next_wrap(alloc: Global, ty: Ty, from: &mut Reader<'_>) -> Result<Ty, AllocError>
    ensures { IfOk result (λ wrapped. (wrapped, from.new) ≡ reading.next_wrap (ty, from.old)) }
{
    let of = Boxed::new(alloc, ty)?;
    from.pass(1);
    if from.first() == b']' {
        from.pass(1);
        return Ok(Ty::Slice(of));
    }
    let length = small(from.number());
    from.pass(1);
    Ok(Ty::Fixed(of, length))
}

fn wraps(alloc: Global, leaf: Ty, from: &mut Reader<'_>) -> Result<Ty, AllocError>
    ensures { IfOk result (λ ty. (ty, from.new) ≡ reading.wraps (leaf, from.old)) }
{
    let mut ty = leaf;
    for _ in 0..from.len() {
        if from.first() != b'[' {
            break;
        }
        ty = next_wrap(alloc, ty, from)?;
    }
    Ok(ty)
}

#[cycle(type_in)]
fn type_in(alloc: Global, depth: usize, from: &mut Reader<'_>) -> Result<Ty, AllocError>
    ensures { IfOk result (λ ty. (ty, from.new) ≡ reading.type_in depth from.old) }
{
    if depth == 0 {
        return Ok(Ty::Void);
    }
    let leaf = leaf_in(alloc, depth - 1, from)?;
    wraps(alloc, leaf, from)
}

fn opens(b: u8) -> bool
    ensures { result ≡ reading.opens b }
{
    b == b'[' || b == b'{'
}

fn ends_list(b: u8) -> bool
    ensures { result ≡ reading.ends_list b }
{
    b == b']' || b == b'}' || b == 0
}

fn pass_comma(from: &mut Reader<'_>)
    ensures { from.new ≡ reading.past_comma from.old }
{
    if from.first() == b',' {
        from.pass(1);
    }
}

#[cycle(tree_in)]
fn items_in(
    alloc: Global,
    depth: usize,
    from: &mut Reader<'_>,
) -> Result<Children<CTree>, AllocError>
    ensures { IfOk result (λ items. (items, from.new) ≡ reading.items_in (reading.tree_in depth) from.old) }
{
    let mut items = Children::new(alloc);
    for _ in 0..from.len() {
        if ends_list(from.first()) {
            break;
        }
        pass_comma(from);
        items.push(tree_in(alloc, depth, from)?)?;
    }
    Ok(items)
}

#[cycle(tree_in)]
fn tree_in(alloc: Global, depth: usize, from: &mut Reader<'_>) -> Result<CTree, AllocError>
    ensures { IfOk result (λ tree. (tree, from.new) ≡ reading.tree_in depth from.old) }
{
    if depth == 0 {
        return Ok(CTree::Num(0));
    }
    if opens(from.first()) {
        from.pass(1);
        let items = items_in(alloc, depth - 1, from)?;
        from.pass(1);
        Ok(CTree::List(items))
    } else {
        Ok(CTree::Num(signed(from)))
    }
}

fn byte_trees(alloc: Global, bytes: &[u8]) -> Result<Children<CTree>, AllocError>
    ensures { IfOk result (λ trees. trees ≡ map reading.byte_tree bytes.now) }
{
    let mut trees = Children::new(alloc);
    for b in bytes {
        trees.push(CTree::Num(*b as i128))?;
    }
    Ok(trees)
}

fn string_in(alloc: Global, from: &mut Reader<'_>) -> Result<CTree, AllocError>
    ensures { IfOk result (λ tree. (tree, from.new) ≡ reading.string_in from.old) }
{
    let n = usize::try_from(from.number()).unwrap_or(usize::MAX);
    from.pass(1);
    Ok(CTree::List(byte_trees(alloc, from.take(n))?))
}

fn value_in(alloc: Global, from: &mut Reader<'_>) -> Result<CTree, AllocError>
    ensures { IfOk result (λ tree. (tree, from.new) ≡ reading.value_in from.old) }
{
    if from.first() == b'"' {
        from.pass(1);
        string_in(alloc, from)
    } else {
        let depth = from.len();
        tree_in(alloc, depth, from)
    }
}

fn typed_in(alloc: Global, ty: Ty, from: &mut Reader<'_>) -> Result<Arg, AllocError>
    ensures { IfOk result (λ arg. (arg, from.new) ≡ reading.typed_in (ty, from.old)) }
{
    if from.first() != b'=' {
        return Ok(Arg::OfType(ty));
    }
    from.pass(1);
    let tree = value_in(alloc, from)?;
    Ok(Arg::OfValue(Const { ty, tree }))
}

fn arg_in(alloc: Global, from: &mut Reader<'_>) -> Result<Arg, AllocError>
    ensures { IfOk result (λ arg. (arg, from.new) ≡ reading.arg_in from.old) }
{
    if from.first() == b'&' {
        from.pass(1);
        return Ok(Arg::OfSymbol(place_in(alloc, from)?));
    }
    let depth = from.len();
    let ty = type_in(alloc, depth, from)?;
    typed_in(alloc, ty, from)
}

fn pass_mark(from: &mut Reader<'_>)
    ensures { from.new ≡ reading.past_mark from.old }
{
    if from.first() == b',' {
        from.pass(2);
    }
}

pub fn args_in(alloc: Global, from: &mut Reader<'_>) -> Result<Args, AllocError>
    ensures { IfOk result (λ args. (args, from.new) ≡ reading.args_in from.old) }
{
    let mut args = Items::new(alloc);
    for _ in 0..from.len() {
        if from.len() == 0 {
            break;
        }
        pass_mark(from);
        args.push(arg_in(alloc, from)?)?;
    }
    Ok(args)
}

/// The arguments that meet the condition of key texts and have this one. On a text that is no key text it gives anything.
pub fn args_of(alloc: Global, key: &[u8]) -> Result<Args, NoMemory>
    ensures { IfOk result (λ args. (all : List AnyArg) → keys.Meets all → keys.text all ≡ key.now → args ≡ all) }
{
    let mut from = Reader::new(key);
    Ok(args_in(alloc, &mut from)?)
}

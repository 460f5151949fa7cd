// Layouts: the fields of structs and the first members of enums, from which cells and start values follow.
ghost use Rattle.std.specs.Prelude.{◌≡◌, ◌≤◌, [], IfOk, unwrap_or, is_some};
ghost use Rattle.dc_layout.specs.Cells as cells;

use dc_types::{Const, Items, Place, Places, Text, Ty, copy_const, copy_place, copy_ty};
use std::alloc::{AllocError, Global};
use std::collections::{BTreeMap, BTreeSet};
use std::marker::Model;

/// A field of a struct, with the value that it starts with (D specification, "Structs, Unions").
#[derive(Drop)]
pub struct Field {
    pub name: Text,
    pub ty: Ty,
    pub start: Const,
}

pub type Fields = Items<Field>;

/// A copy that is equal.
pub fn copy_field(alloc: Global, field: &Field) -> Result<Field, AllocError>
    ensures { IfOk result (λ copy. copy ≡ field.now) }
{
    Ok(Field {
        name: Text::copy_of(alloc, field.name.as_slice())?,
        ty: copy_ty(alloc, &field.ty)?,
        start: copy_const(alloc, &field.start)?,
    })
}

/// A copy that is equal.
pub fn copy_fields(alloc: Global, fields: &Fields) -> Result<Fields, AllocError>
    ensures { IfOk result (λ copy. copy ≡ fields.now) }
{
    let mut copy = Items::new(alloc);
    for field in fields.as_slice() {
        copy.push(copy_field(alloc, field)?)?;
    }
    Ok(copy)
}

/// Structs with their fields, and enums with their first members, by their places.
#[derive(Drop)]
pub struct LayoutDraft {
    pub structs: BTreeMap<Place, Fields>,
    pub enums: BTreeMap<Place, Const>,
}

/// Layouts, which contracts see as lists of structs and enums with their places. The type keeps the cells of each
/// struct.
#[derive(Drop)]
pub struct Layouts {
    structs: BTreeMap<Place, Fields>,
    enums: BTreeMap<Place, Const>,
    cells: BTreeMap<Place, u64>,
}

impl Model for Layouts {
    ghost use Rattle.std.specs.Prelude.{List};
    ghost use Rattle.std.specs.Coded.{coded_list, coded×};
    ghost use Rattle.dc_types.specs.declared.place.Place.{Place as AnyPlace};
    ghost use Rattle.dc_types.specs.declared.constant.Const.{Const as AnyConst};
    ghost use Rattle.dc_layout.specs.declared.layout.Field.{Field as AnyField};
    ghost use Rattle.dc_types.specs.contracts.place.Place as a_place;
    ghost use Rattle.dc_types.specs.contracts.constant.Const as a_const;
    ghost use Rattle.dc_layout.specs.contracts.layout.Field as a_field;
    ghost use Rattle.dc_layout.specs.Cells.{IsTable};

    ghost Value = { List (AnyPlace × List AnyField) × List (AnyPlace × AnyConst) };

    ghost coded = { coded× (coded_list (coded× a_place.the_row.coded (coded_list a_field.the_row.coded))) (coded_list (coded× a_place.the_row.coded a_const.the_row.coded)) };

    ghost view = { λ l. (l.structs.entries, l.enums.entries) };

    ghost invariant = { λ l. IsTable l.structs.entries l.cells.entries };
}

impl Layouts {
    ghost use Rattle.std.specs.Prelude.{◌≡◌};
    ghost use Rattle.std.specs.Option.{option_copied};
    ghost use Rattle.dc_layout.specs.Cells as cells;

    /// The fields of the struct that is declared at the place.
    pub fn fields_of(&self, place: &Place) -> Option<&Fields>
        ensures { option_copied result ≡ cells.at self.now.0 place.now }
    {
        self.structs.get(place)
    }

    /// The first member of the enum that is declared at the place.
    pub fn first_of(&self, place: &Place) -> Option<&Const>
        ensures { option_copied result ≡ cells.at self.now.1 place.now }
    {
        self.enums.get(place)
    }
}

/// A number of arrays' elements, each of as many cells.
fn times(n: u32, c: u64) -> u64
    ensures { result ≡ cells.times n c }
{
    (n as u64 * c.min(1_048_577)).clamp(1, 1_048_577)
}

fn plus(total: u64, c: u64) -> u64
    requires { total ≤ 1048577 }
    ensures { result ≡ cells.plus total c }
{
    (total + c.min(1_048_577)).min(1_048_577)
}

/// The cells of a type by those of structs, or nothing where one lacks.
fn cells_in(known: &BTreeMap<Place, u64>, ty: &Ty) -> Option<u64>
    ensures { result ≡ cells.cells_in known.now.entries ty.now }
{
    match ty {
        Ty::Void | Ty::Int(_) => Some(1),
        Ty::Fixed(of, n) => {
            let c = cells_in(known, of.get())?;
            Some(times(*n, c))
        }
        Ty::Slice(_) | Ty::Str | Ty::NullLit | Ty::EmptyLit => Some(3),
        Ty::Struct(at) => known.get(at).copied(),
        Ty::Enum(_, base) => cells_in(known, base.get()),
    }
}

/// The cells of a struct with these fields by those of other structs, or nothing where one lacks.
fn struct_in(known: &BTreeMap<Place, u64>, fields: &[Field]) -> Option<u64>
    ensures { result ≡ cells.struct_in known.now.entries fields.now }
{
    let mut total = 0;
    for field in fields {
        total = plus(total, cells_in(known, &field.ty)?);
    }
    Some(total.max(1))
}

/// Puts the cells of the struct at the place into the table, where they follow from it, and says whether they stand there.
fn settle(
    alloc: Global,
    structs: &BTreeMap<Place, Fields>,
    known: &mut BTreeMap<Place, u64>,
    at: &Place,
) -> Result<bool, AllocError>
    ensures table { IfOk result (λ _. known.new.entries ≡ unwrap_or (cells.settled structs.now.entries known.old.entries at.now) known.old.entries) }
    ensures done { IfOk result (λ done. done ≡ is_some (cells.settled structs.now.entries known.old.entries at.now)) }
{
    if known.get(at).is_some() {
        return Ok(true);
    }
    let Some(fields) = structs.get(at) else {
        return Ok(false);
    };
    let Some(n) = struct_in(known, fields.as_slice()) else {
        return Ok(false);
    };
    known.insert(copy_place(alloc, at)?, n)?;
    Ok(true)
}

fn keep(alloc: Global, done: bool, still: &mut Places, at: &Place) -> Result<(), AllocError>
    ensures { IfOk result (λ _. still.new ≡ cells.kept done still.old at.now) }
{
    if !done {
        still.push(copy_place(alloc, at)?)?;
    }
    Ok(())
}

/// Tries each of the places in turn, and gives those that are still waiting.
fn pass(
    alloc: Global,
    structs: &BTreeMap<Place, Fields>,
    known: &mut BTreeMap<Place, u64>,
    waiting: &Places,
) -> Result<Places, AllocError>
    ensures { IfOk result (λ still. (known.new.entries, still) ≡ cells.passed structs.now.entries known.old.entries [] waiting.now) }
{
    let mut still = Items::new(alloc);
    for at in waiting.as_slice() {
        let done = settle(alloc, structs, known, at)?;
        keep(alloc, done, &mut still, at)?;
    }
    Ok(still)
}

/// The struct that a type holds by value.
fn held(ty: &Ty) -> Option<&Place> {
    match ty {
        Ty::Fixed(of, _) => held(of.get()),
        Ty::Enum(_, base) => held(base.get()),
        Ty::Struct(at) => Some(at),
        _ => None,
    }
}

/// What is left to do on the way through the structs: to list one, or to go on to those that it holds.
#[derive(Drop)]
enum Todo {
    List(Place),
    Visit(Place),
}

fn visit(
    alloc: Global,
    structs: &BTreeMap<Place, Fields>,
    todo: &mut Vec<Todo>,
    at: Place,
) -> Result<(), AllocError> {
    let fields = structs.get(&at);
    todo.push(Todo::List(at))?;
    let Some(fields) = fields else {
        return Ok(());
    };
    for field in fields.as_slice() {
        if let Some(inner) = held(&field.ty) {
            todo.push(Todo::Visit(copy_place(alloc, inner)?))?;
        }
    }
    Ok(())
}

/// The structs, each behind those that it holds by value. Only how many passes are made rests on this order.
fn inner_first(alloc: Global, structs: &BTreeMap<Place, Fields>) -> Result<Places, AllocError> {
    let mut places = Items::new(alloc);
    let mut seen = BTreeSet::new(alloc);
    let mut todo = Vec::new(alloc);
    for at in structs.keys() {
        todo.push(Todo::Visit(copy_place(alloc, at)?))?;
    }
    for _ in 0..u64::MAX {
        match todo.pop() {
            None => break,
            Some(Todo::List(at)) => places.push(at)?,
            Some(Todo::Visit(at)) => {
                if seen.insert(copy_place(alloc, &at)?)? {
                    visit(alloc, structs, &mut todo, at)?;
                }
            }
        }
    }
    Ok(places)
}

/// All structs. Each stands behind those that it holds by value, so that one pass does.
fn all_places(alloc: Global, structs: &BTreeMap<Place, Fields>) -> Result<Places, AllocError>
    ensures { IfOk result (λ places. cells.Waits structs.now.entries [] places) }
{
    let mut places = inner_first(alloc, structs)?;
    for at in structs.keys() {
        places.push(copy_place(alloc, at)?)?;
    }
    Ok(places)
}

/// The table of the cells of structs. It is filled in passes over the structs whose cells aren't known, until one
/// finds none.
fn table(
    alloc: Global,
    structs: &BTreeMap<Place, Fields>,
) -> Result<BTreeMap<Place, u64>, AllocError>
    ensures { IfOk result (λ known. cells.IsTable structs.now.entries known.entries) }
{
    let mut known = BTreeMap::new(alloc);
    let mut waiting = all_places(alloc, structs)?;
    loop {
        let still = pass(alloc, structs, &mut known, &waiting)?;
        if still.len() == waiting.len() {
            return Ok(known);
        }
        waiting = still;
    }
}

fn put<V: Drop>(map: &mut BTreeMap<Place, V>, at: Place, value: V) -> Result<(), AllocError>
    ensures { IfOk result (λ _. map.new.entries ≡ cells.put map.old.entries at value) }
{
    map.insert(at, value)?;
    Ok(())
}

/// A copy with equal entries.
fn copy_structs(
    alloc: Global,
    structs: &BTreeMap<Place, Fields>,
) -> Result<BTreeMap<Place, Fields>, AllocError>
    ensures { IfOk result (λ copy. copy.entries ≡ structs.now.entries) }
{
    let mut copy = BTreeMap::new(alloc);
    for (at, fields) in structs.iter() {
        put(
            &mut copy,
            copy_place(alloc, at)?,
            copy_fields(alloc, fields)?,
        )?;
    }
    Ok(copy)
}

/// A copy with equal entries.
fn copy_enums(
    alloc: Global,
    enums: &BTreeMap<Place, Const>,
) -> Result<BTreeMap<Place, Const>, AllocError>
    ensures { IfOk result (λ copy. copy.entries ≡ enums.now.entries) }
{
    let mut copy = BTreeMap::new(alloc);
    for (at, first) in enums.iter() {
        put(&mut copy, copy_place(alloc, at)?, copy_const(alloc, first)?)?;
    }
    Ok(copy)
}

/// A copy with equal structs and enums.
pub fn copy_layout_draft(alloc: Global, draft: &LayoutDraft) -> Result<LayoutDraft, AllocError>
    ensures { IfOk result (λ copy. (copy.structs.entries ≡ draft.now.structs.entries) × (copy.enums.entries ≡ draft.now.enums.entries)) }
{
    Ok(LayoutDraft {
        structs: copy_structs(alloc, &draft.structs)?,
        enums: copy_enums(alloc, &draft.enums)?,
    })
}

/// A copy that is equal.
pub fn copy_layouts(alloc: Global, layouts: &Layouts) -> Result<Layouts, AllocError>
    ensures { IfOk result (λ copy. copy ≡ layouts.now) }
{
    LayoutDraft {
        structs: copy_structs(alloc, &layouts.structs)?,
        enums: copy_enums(alloc, &layouts.enums)?,
    }
    .finish(alloc)
}

impl LayoutDraft {
    pub fn new(alloc: Global) -> LayoutDraft
        ensures { (result.structs.entries ≡ []) × (result.enums.entries ≡ []) }
    {
        LayoutDraft {
            structs: BTreeMap::new(alloc),
            enums: BTreeMap::new(alloc),
        }
    }

    pub fn finish(self, alloc: Global) -> Result<Layouts, AllocError>
        ensures { IfOk result (λ layouts. layouts ≡ (self.structs.entries, self.enums.entries)) }
    {
        let LayoutDraft { structs, enums } = self;
        let cells = table(alloc, &structs)?;
        Ok(Layouts {
            structs,
            enums,
            cells,
        })
    }
}

/// The cells of a type: a number or `void` has one; a slice, a `string` and the types of `null` and `[]` have three; a
/// fixed array has those of its elements, an enum those of its base and a struct those of its fields; each at least one. Every number above 1,048,576 is
/// answered as 1,048,577, and so is a type that is or holds by value a struct which holds itself by value, or one that
/// isn't among the layouts. It takes no memory.
pub fn cells(ty: &Ty, layouts: &Layouts) -> u64
    ensures { cells.AreCells layouts.now.0 ty.now result }
{
    cells_in(&layouts.cells, ty).unwrap_or(1_048_577)
}

// What declarations introduce: rows, conditionals, and the units of structs.
use crate::breaks::{Breaks, add_break, add_row};
use dc_model::{
    Cond, CondId, Decl, DeclKind, Import, ImportForm, Item, ItemId, ItemKind, Row, Stop, Unit,
    UnitKind, World,
};
use dc_syntax::{Form, ImportNode, ItemNode, List, NameId, NodeId, View};
use dc_tree::{DeclId, SpotId, UnitId, Where};

/// Where declarations are introduced: into which unit, in which text, and by which conditional.
#[derive(Clone, Copy)]
pub(crate) struct Into {
    pub unit: UnitId,
    pub spot: SpotId,
    /// Who sees those that don't say so themselves.
    pub view: View,
    pub by: Option<CondId>,
}

/// What was introduced, in text order.
#[derive(Drop)]
pub(crate) struct Introduced {
    pub items: Vec<ItemKind>,
    pub conds: Vec<CondId>,
}

/// How deep conditionals and structs may stand in one another.
pub(crate) const NESTED: u32 = 2_000;

fn here(into: Into, at: u32) -> Where {
    Where {
        spot: into.spot,
        at,
    }
}

fn joined(outer: View, own: View) -> View {
    match own {
        View::Inherited => outer,
        View::Private | View::Public => own,
    }
}

/// Introduces a list of declarations.
#[cycle(introducing)]
pub(crate) fn introduce(
    w: &mut World,
    into: Into,
    list: List,
    out: &mut Introduced,
    breaks: &mut Breaks,
    depth: u32,
) -> Result<(), Stop> {
    if depth == 0 {
        return Err(Stop::NoMemory);
    }
    for k in 0..list.len {
        let n = w.pool.syntax.item(list, k);
        let (view, inner) = match w.pool.syntax.node(n).form {
            Form::Declared(view, inner) => (joined(into.view, view), inner),
            _ => (into.view, n),
        };
        one(w, Into { view, ..into }, inner, out, breaks, depth - 1)?;
    }
    Ok(())
}

/// Introduces one declaration.
#[cycle(introducing)]
fn one(
    w: &mut World,
    into: Into,
    n: NodeId,
    out: &mut Introduced,
    breaks: &mut Breaks,
    depth: u32,
) -> Result<(), Stop> {
    if depth == 0 {
        return Err(Stop::NoMemory);
    }
    let node = w.pool.syntax.node(n);
    let at = here(into, node.at);
    match node.form {
        Form::Import(m) => imports(w, into, m, breaks),
        Form::Version(name, then, other) => {
            let taken = if w.versions.contains(&name) {
                then
            } else {
                other
            };
            introduce(w, into, taken, out, breaks, depth - 1)
        }
        Form::StaticIf(_, _, _) | Form::StaticForeach(_) | Form::MixinHere(_) => {
            conditional(w, into, n, at, out)
        }
        Form::StaticAssert(_, _) => {
            let decl = blank(into, DeclKind::StaticAssert, n, at);
            let id = w.add_decl(decl)?;
            out.items.push(ItemKind::Decl(id))?;
            Ok(())
        }
        Form::Variable(m) => variables(w, into, n, m, out, breaks),
        Form::Enum(m) => enumeration(w, into, n, m, out, breaks),
        Form::Struct(m) => structure(w, into, n, m, out, breaks, depth - 1),
        _ => {
            named(w, into, n, at, out, breaks)?;
            Ok(())
        }
    }
}

/// A declaration without a name.
fn blank(into: Into, kind: DeclKind, node: NodeId, at: Where) -> Decl {
    Decl {
        kind,
        node,
        at,
        unit: into.unit,
        name: None,
        hidden: into.view == View::Private,
        index: 0,
        other: None,
        owner: None,
        is_template: false,
        inner: None,
        local: None,
    }
}

/// Adds a declaration with its place.
fn add(w: &mut World, decl: Decl) -> Result<DeclId, Stop> {
    let place = w.pool.places.place(decl.at)?;
    let id = w.add_decl(decl)?;
    w.placed.insert(place, id)?;
    Ok(id)
}

fn row_of(into: Into, at: Where, id: DeclId, callable: bool) -> Row {
    Row {
        unit: into.unit,
        at,
        hidden: into.view == View::Private,
        callable,
        decl: Some(id),
        import: None,
        by: into.by,
        before: None,
    }
}

fn conditional(
    w: &mut World,
    into: Into,
    node: NodeId,
    at: Where,
    out: &mut Introduced,
) -> Result<(), Stop> {
    let Ok(n) = u32::try_from(w.conds.len()) else {
        return Err(Stop::NoMemory);
    };
    w.conds.push(Cond {
        node,
        at,
        unit: into.unit,
        view: into.view,
        next: None,
        item: ItemId(0),
    })?;
    out.conds.push(CondId(n))?;
    out.items.push(ItemKind::Cond(CondId(n), None))?;
    Ok(())
}

/// The kind, the name and the template parameters of a declaration.
fn parts(w: &World, n: NodeId) -> Option<(DeclKind, NameId, bool)> {
    let syntax = &w.pool.syntax;
    match syntax.node(n).form {
        Form::Constant(m) => syntax
            .constants
            .get(m as usize)
            .map(|c| (DeclKind::Constant, c.name, c.parameters.is_some())),
        Form::Alias(m) => syntax
            .aliases
            .get(m as usize)
            .map(|a| (DeclKind::Alias, a.name, a.parameters.is_some())),
        Form::Template(m) => syntax
            .structs
            .get(m as usize)
            .map(|t| (DeclKind::Template, t.name, true)),
        Form::Function(m) => syntax.functions.get(m as usize).map(|f| (
            DeclKind::Function,
            f.name,
            f.template_parameters.is_some(),
        )),
        _ => None,
    }
}

/// A constant, an alias, a template or a function.
fn named(
    w: &mut World,
    into: Into,
    n: NodeId,
    at: Where,
    out: &mut Introduced,
    breaks: &mut Breaks,
) -> Result<(), Stop> {
    let Some((kind, name, is_template)) = parts(w, n) else {
        return Ok(());
    };
    let decl = Decl {
        name: Some(name),
        is_template,
        ..blank(into, kind, n, at)
    };
    let id = add(w, decl)?;
    out.items.push(ItemKind::Decl(id))?;
    let row = row_of(into, at, id, kind == DeclKind::Function);
    add_row(w, breaks, name, row)
}

fn variables(
    w: &mut World,
    into: Into,
    n: NodeId,
    m: u32,
    out: &mut Introduced,
    breaks: &mut Breaks,
) -> Result<(), Stop> {
    let Some(node) = w.pool.syntax.variables.get(m as usize).copied() else {
        return Ok(());
    };
    for k in 0..node.variables.len {
        let one = w.pool.syntax.node(w.pool.syntax.item(node.variables, k));
        let Form::One(name, _, _) = one.form else {
            continue;
        };
        let at = here(into, one.at);
        let decl = Decl {
            name: Some(name),
            index: k,
            ..blank(into, DeclKind::Variable, n, at)
        };
        let id = add(w, decl)?;
        out.items.push(ItemKind::Decl(id))?;
        add_row(w, breaks, name, row_of(into, at, id, false))?;
    }
    Ok(())
}

fn set_other(w: &mut World, id: DeclId, other: DeclId) {
    if let Some(decl) = w.decls.get_mut(id.0 as usize) {
        decl.other = Some(other);
    }
}

fn enumeration(
    w: &mut World,
    into: Into,
    n: NodeId,
    m: u32,
    out: &mut Introduced,
    breaks: &mut Breaks,
) -> Result<(), Stop> {
    let Some(node) = w.pool.syntax.enums.get(m as usize).copied() else {
        return Ok(());
    };
    let at = here(into, w.pool.syntax.node(n).at);
    let whole = Decl {
        name: node.name,
        ..blank(into, DeclKind::Enum, n, at)
    };
    let id = match node.name {
        Some(_) => add(w, whole)?,
        None => w.add_decl(whole)?,
    };
    out.items.push(ItemKind::Decl(id))?;
    if let Some(name) = node.name {
        add_row(w, breaks, name, row_of(into, at, id, false))?;
    }
    members(w, into, id, whole, node.members, breaks)
}

fn members(
    w: &mut World,
    into: Into,
    owner: DeclId,
    whole: Decl,
    list: List,
    breaks: &mut Breaks,
) -> Result<(), Stop> {
    let mut last = owner;
    let mut seen = Vec::new(w.alloc);
    for k in 0..list.len {
        let member = w.pool.syntax.node(w.pool.syntax.item(list, k));
        let Form::EnumMember(name, _) = member.form else {
            continue;
        };
        let at = here(into, member.at);
        let decl = Decl {
            kind: DeclKind::Member,
            at,
            name: Some(name),
            index: k,
            other: None,
            owner: Some(owner),
            ..whole
        };
        let id = add(w, decl)?;
        set_other(w, last, id);
        last = id;
        if whole.name.is_none() {
            add_row(w, breaks, name, row_of(into, at, id, false))?;
        } else if seen.contains(&name) {
            add_break(w, breaks, 7, at, Some(name))?;
        }
        seen.push(name)?;
    }
    Ok(())
}

/// A struct, and its unit where it is no template.
#[cycle(introducing)]
fn structure(
    w: &mut World,
    into: Into,
    n: NodeId,
    m: u32,
    out: &mut Introduced,
    breaks: &mut Breaks,
    depth: u32,
) -> Result<(), Stop> {
    if depth == 0 {
        return Err(Stop::NoMemory);
    }
    let Some(node) = w.pool.syntax.structure(m) else {
        return Ok(());
    };
    let at = here(into, w.pool.syntax.node(n).at);
    let decl = Decl {
        name: Some(node.name),
        is_template: node.parameters.is_some(),
        ..blank(into, DeclKind::Struct, n, at)
    };
    let id = add(w, decl)?;
    out.items.push(ItemKind::Decl(id))?;
    if node.parameters.is_none() {
        let unit = struct_unit(w, into, id, node.name, at)?;
        let inside = Into {
            unit,
            spot: into.spot,
            view: View::Inherited,
            by: None,
        };
        let mut own = Introduced {
            items: Vec::new(w.alloc),
            conds: Vec::new(w.alloc),
        };
        introduce(w, inside, node.members, &mut own, breaks, depth - 1)?;
        fill_unit(w, unit, &own)?;
    }
    add_row(w, breaks, node.name, row_of(into, at, id, false))
}

fn struct_unit(
    w: &mut World,
    into: Into,
    id: DeclId,
    name: NameId,
    at: Where,
) -> Result<UnitId, Stop> {
    let unit = w.add_unit(Unit {
        kind: UnitKind::Struct,
        at,
        spot: into.spot,
        outer: Some(into.unit),
        name,
        decl: Some(id),
        args: None,
        own: Some(id),
        pending: None,
        first: None,
        is_named: false,
        is_built: true,
    })?;
    if let Some(decl) = w.decls.get_mut(id.0 as usize) {
        decl.inner = Some(unit);
    }
    let place = w.pool.places.place(at)?;
    w.instances.insert(place, unit)?;
    Ok(unit)
}

/// Links what was introduced as the items of a list; gives its first.
pub(crate) fn link_items(w: &mut World, items: &[ItemKind]) -> Result<Option<ItemId>, Stop> {
    let mut next = None;
    for back in 0..items.len() {
        let Some(kind) = items.get(items.len() - 1 - back).copied() else {
            break;
        };
        let id = w.add_item(Item { kind, next })?;
        if let ItemKind::Cond(cond, _) = kind {
            if let Some(slot) = w.conds.get_mut(cond.0 as usize) {
                slot.item = id;
            }
        }
        next = Some(id);
    }
    Ok(next)
}

/// Links conditionals in text order before one; gives the first.
pub(crate) fn link_conds(
    w: &mut World,
    conds: &[CondId],
    behind: Option<CondId>,
) -> Option<CondId> {
    let mut next = behind;
    for back in 0..conds.len() {
        let Some(id) = conds.get(conds.len() - 1 - back).copied() else {
            break;
        };
        if let Some(slot) = w.conds.get_mut(id.0 as usize) {
            slot.next = next;
        }
        next = Some(id);
    }
    next
}

/// Gives a unit what stands in it.
pub(crate) fn fill_unit(w: &mut World, unit: UnitId, own: &Introduced) -> Result<(), Stop> {
    let first = link_items(w, own.items.as_slice())?;
    let pending = link_conds(w, own.conds.as_slice(), None);
    if let Some(slot) = w.units.get_mut(unit.0 as usize) {
        slot.first = first;
        slot.pending = pending;
        slot.is_built = true;
    }
    Ok(())
}

/// The items of a list of numbers.
fn items_of(w: &World, list: List) -> Result<Vec<ItemNode>, Stop> {
    let mut all = Vec::new(w.alloc);
    for n in w.pool.syntax.numbers(list) {
        if let Some(item) = w.pool.syntax.items.get(*n as usize) {
            all.push(*item)?;
        }
    }
    Ok(all)
}

/// Whether an import is one that a conditional introduces into its own unit; and whether its module is there.
fn check_import(
    w: &mut World,
    into: Into,
    item: ItemNode,
    breaks: &mut Breaks,
) -> Result<(), Stop> {
    let at = here(into, item.path_at);
    if !w.modules.contains_key(&item.path) {
        add_break(w, breaks, 4, at, Some(item.path))?;
    }
    if into.by.is_some() {
        add_break(w, breaks, 9, at, Some(item.path))?;
    }
    Ok(())
}

fn import_row(into: Into, item: ItemNode, form: ImportForm, at: u32) -> Row {
    let is_public = into.view == View::Public;
    Row {
        unit: into.unit,
        at: here(into, at),
        hidden: !is_public,
        callable: false,
        decl: None,
        import: Some(Import {
            path: item.path,
            path_at: here(into, item.path_at),
            is_public,
            form,
        }),
        by: into.by,
        before: None,
    }
}

fn imports(w: &mut World, into: Into, m: u32, breaks: &mut Breaks) -> Result<(), Stop> {
    let Some(node) = w.pool.syntax.imports.get(m as usize).copied() else {
        return Ok(());
    };
    let items = items_of(w, node.items)?;
    for (k, item) in items.as_slice().iter().enumerate() {
        let is_last = k.saturating_add(1) == items.len();
        check_import(w, into, *item, breaks)?;
        import_item(w, into, node, *item, is_last, breaks)?;
    }
    Ok(())
}

/// One item of an import, with the binds where it is the last.
fn import_item(
    w: &mut World,
    into: Into,
    node: ImportNode,
    item: ItemNode,
    is_last: bool,
    breaks: &mut Breaks,
) -> Result<(), Stop> {
    if let Some(name) = item.renamed {
        let row = import_row(into, item, ImportForm::Renamed, item.renamed_at);
        add_row(w, breaks, name, row)?;
    }
    if is_last && node.binds.len > 0 {
        for bind in items_of(w, node.binds)?.as_slice() {
            let own = match bind.renamed {
                Some(name) => name,
                None => bind.path,
            };
            let form = ImportForm::Selected(own, bind.path);
            let row = import_row(into, item, form, bind.renamed_at);
            w.rows.add_import(row)?;
        }
        return Ok(());
    }
    if item.renamed.is_none() {
        let form = if node.is_static {
            ImportForm::Static
        } else {
            ImportForm::Plain
        };
        let row = import_row(into, item, form, item.path_at);
        w.rows.add_import(row)?;
    }
    Ok(())
}

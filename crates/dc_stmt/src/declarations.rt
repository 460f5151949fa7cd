// Declarations in bodies (D specification, "Declarations").
use crate::statements::{Judged, NOTHING, here, made};
use dc_decl::{alias_target, check_auto};
use dc_facts::{check_cells, start_value, symbol_of};
use dc_form::coerce;
use dc_model::{BlockId, Decl, DeclKind, Env, Import, ImportForm, Row, Stop, Symbol, World};
use dc_names::{Want, check_storage};
use dc_syntax::{Form, ItemNode, NameId, NodeId, VariableNode};
use dc_tree::{DeclId, StmtForm, Tree, TreeForm, TreeId, TypeId, VarId, Variable, Where};
use dc_typing::{evaluate, judge, judge_to, judge_type};

/// Refuses a name that another local of the function has.
fn check_new(w: &mut World, env: Env, name: NameId, at: Where) -> Result<BlockId, Stop> {
    if w.locals.is_taken(env.block, name, at) {
        return w.refuse(7, at, Some(name));
    }
    match env.block {
        Some(block) => Ok(w.locals.home(block)),
        None => Err(Stop::NoMemory),
    }
}

/// Declares a name in the innermost block.
pub(crate) fn declare(
    w: &mut World,
    env: Env,
    name: NameId,
    symbol: Symbol,
    at: Where,
) -> Result<(), Stop> {
    let block = check_new(w, env, name, at)?;
    w.locals.put(block, name, symbol, at)?;
    Ok(())
}

/// Declares a local variable.
pub(crate) fn declare_variable(w: &mut World, env: Env, variable: Variable) -> Result<VarId, Stop> {
    let id = w.pool.variables.add(variable)?;
    declare(w, env, variable.name, Symbol::Local(id), variable.at)?;
    Ok(id)
}

/// The start value of a type, as what a variable begins with.
fn start_tree(w: &mut World, of: TypeId, at: Where) -> Result<TreeId, Stop> {
    let value = start_value(w, of)?;
    Ok(
        w.pool.trees.add(Tree {
            form: TreeForm::Start(value),
            of,
            at,
            range: dc_tree::Ranges::NONE,
            value: Some(value),
            is_place: false,
            read_only: false,
            root: None,
            own: false,
        })?,
    )
}

/// The value of a variable without a stated type, and its type.
fn untyped(
    w: &mut World,
    env: Env,
    variable: VariableNode,
    value: Option<NodeId>,
    at: Where,
    depth: u32,
) -> Result<(TreeId, TypeId), Stop> {
    let Some(value) = value else {
        return w.refuse(10, at, None);
    };
    let tree = judge(w, env, value, None, depth)?;
    let of = w.pool.trees.get(tree).of;
    let value_at = here(env, w.pool.syntax.node(value).at);
    if of == TypeId::VOID {
        return w.refuse(10, value_at, None);
    }
    check_auto(w, of, value_at)?;
    check_storage(w, variable.storage, of, value_at)?;
    Ok((coerce(w, tree, of, value_at)?, of))
}

/// The stated type of variables.
fn stated(
    w: &mut World,
    env: Env,
    variable: VariableNode,
    depth: u32,
) -> Result<Option<TypeId>, Stop> {
    let Some(node) = variable.of else {
        return Ok(None);
    };
    let of = judge_type(w, env, node, depth)?;
    let at = here(env, w.pool.syntax.node(node).at);
    if of == TypeId::VOID {
        return w.refuse(10, at, None);
    }
    check_storage(w, variable.storage, of, at)?;
    Ok(Some(of))
}

/// `const T a = 1, b;`
pub(crate) fn variables(
    w: &mut World,
    env: Env,
    m: u32,
    at: Where,
    depth: u32,
) -> Result<Judged, Stop> {
    let Some(variable) = w.pool.syntax.variables.get(m as usize).copied() else {
        return Err(Stop::NoMemory);
    };
    let of = stated(w, env, variable, depth)?;
    let mut all = Vec::new(w.alloc);
    for k in 0..variable.variables.len {
        let node = w
            .pool
            .syntax
            .node(w.pool.syntax.item(variable.variables, k));
        let Form::One(name, _, value) = node.form else {
            continue;
        };
        let own_at = here(env, node.at);
        let (tree, of) = match (of, value) {
            (Some(of), Some(value)) => (judge_to(w, env, value, of, depth)?, of),
            (Some(of), None) => (start_tree(w, of, own_at)?, of),
            (None, value) => untyped(w, env, variable, value, own_at, depth)?,
        };
        check_cells(w, of, own_at)?;
        let new = Variable {
            name,
            of,
            at: own_at,
            is_const: variable.storage.is_some(),
            is_ref: false,
            own: false,
        };
        let id = declare_variable(w, env, new)?;
        let stmt = w.pool.stmts.add(own_at, StmtForm::Declare(id, tree))?;
        all.push(stmt.0)?;
    }
    if let [only] = all.as_slice() {
        return Ok(Judged {
            stmt: Some(dc_tree::StmtId(*only)),
            completes: true,
        });
    }
    let list = w.pool.stmts.list(all.as_slice())?;
    made(w, at, StmtForm::Sequence(list), true)
}

/// `enum T name = value;`
pub(crate) fn constant(
    w: &mut World,
    env: Env,
    m: u32,
    at: Where,
    depth: u32,
) -> Result<Judged, Stop> {
    let Some(constant) = w.pool.syntax.constants.get(m as usize).copied() else {
        return Err(Stop::NoMemory);
    };
    if constant.parameters.is_some() {
        return w.refuse(10, at, None);
    }
    let want = match constant.of {
        Some(of) => {
            let found = judge_type(w, env, of, depth)?;
            if found == TypeId::VOID {
                let of_at = here(env, w.pool.syntax.node(of).at);
                return w.refuse(10, of_at, None);
            }
            Want::To(found)
        }
        None => Want::Any,
    };
    let (of, value) = evaluate(w, env, constant.value, want, depth)?;
    if of == TypeId::VOID {
        let value_at = here(env, w.pool.syntax.node(constant.value).at);
        return w.refuse(10, value_at, None);
    }
    declare(w, env, constant.name, Symbol::Value(of, value), at)?;
    Ok(NOTHING)
}

/// `alias name = target;`
pub(crate) fn alias(w: &mut World, env: Env, m: u32, at: Where) -> Result<Judged, Stop> {
    let Some(alias) = w.pool.syntax.aliases.get(m as usize).copied() else {
        return Err(Stop::NoMemory);
    };
    if alias.parameters.is_some() {
        return w.refuse(10, at, None);
    }
    let symbol = alias_target(w, env, alias.target)?;
    declare(w, env, alias.name, symbol, at)?;
    Ok(NOTHING)
}

/// The declaration that stands at a place of a body, which is added where it is new.
fn local_decl(w: &mut World, decl: Decl) -> Result<DeclId, Stop> {
    let place = w.pool.places.place(decl.at)?;
    if let Some(known) = w.placed.get(&place) {
        return Ok(*known);
    }
    let id = w.add_decl(decl)?;
    w.placed.insert(place, id)?;
    Ok(id)
}

fn set_other(w: &mut World, id: DeclId, other: DeclId) {
    if let Some(decl) = w.decls.get_mut(id.0 as usize) {
        decl.other = Some(other);
    }
}

/// An enum of a body, with its members.
fn local_enum(w: &mut World, env: Env, n: NodeId, at: Where) -> Result<DeclId, Stop> {
    let Form::Enum(m) = w.pool.syntax.node(n).form else {
        return Err(Stop::NoMemory);
    };
    let Some(node) = w.pool.syntax.enums.get(m as usize).copied() else {
        return Err(Stop::NoMemory);
    };
    let blank = Decl {
        kind: DeclKind::Enum,
        node: n,
        at,
        unit: env.unit,
        name: node.name,
        hidden: false,
        index: 0,
        other: None,
        owner: None,
        is_template: false,
        inner: None,
        local: Some(env),
    };
    let id = local_decl(w, blank)?;
    let mut last = id;
    for k in 0..node.members.len {
        let member = w.pool.syntax.node(w.pool.syntax.item(node.members, k));
        let Form::EnumMember(name, _) = member.form else {
            continue;
        };
        let own = local_decl(
            w,
            Decl {
                kind: DeclKind::Member,
                at: here(env, member.at),
                name: Some(name),
                index: k,
                owner: Some(id),
                ..blank
            },
        )?;
        set_other(w, last, own);
        last = own;
    }
    Ok(id)
}

/// The members of an enum, in their order.
fn members_of(w: &World, id: DeclId) -> Result<Vec<DeclId>, Stop> {
    let mut all = Vec::new(w.alloc);
    let mut at = w.decl(id)?.other;
    for _ in 0..u64::MAX {
        let Some(member) = at else {
            break;
        };
        all.push(member)?;
        at = w.decl(member)?.other;
    }
    Ok(all)
}

/// Refuses a member that stands twice.
fn check_members(w: &mut World, members: &[DeclId]) -> Result<(), Stop> {
    let mut seen = Vec::new(w.alloc);
    for id in members {
        let member = w.decl(*id)?;
        if let Some(name) = member.name {
            if seen.contains(&name) {
                return w.refuse(7, member.at, Some(name));
            }
            seen.push(name)?;
        }
    }
    Ok(())
}

/// `enum name { members }`
pub(crate) fn enumeration(w: &mut World, env: Env, n: NodeId, at: Where) -> Result<Judged, Stop> {
    let id = local_enum(w, env, n, at)?;
    let members = members_of(w, id)?;
    check_members(w, members.as_slice())?;
    let whole = symbol_of(w, id)?;
    let mut values = Vec::new(w.alloc);
    for member in members.as_slice() {
        let value = symbol_of(w, *member)?;
        values.push(value)?;
    }
    if let Some(name) = w.decl(id)?.name {
        declare(w, env, name, whole, at)?;
        return Ok(NOTHING);
    }
    for (member, value) in members.as_slice().iter().zip(values.as_slice().iter()) {
        let known = w.decl(*member)?;
        if let Some(name) = known.name {
            declare(w, env, name, *value, known.at)?;
        }
    }
    Ok(NOTHING)
}

/// An import of a body, as a row of its block.
fn import_row(env: Env, path: NameId, path_at: u32, form: ImportForm, at: u32) -> Row {
    Row {
        unit: env.unit,
        at: here(env, at),
        hidden: true,
        callable: false,
        decl: None,
        import: Some(Import {
            path,
            path_at: here(env, path_at),
            is_public: false,
            form,
        }),
        by: None,
        before: None,
    }
}

fn add_row(w: &mut World, env: Env, row: Row) -> Result<(), Stop> {
    let Some(block) = env.block else {
        return Err(Stop::NoMemory);
    };
    let home = w.locals.home(block);
    let before = match w.locals.block(home) {
        Some(known) => known.imports,
        None => None,
    };
    let id = w.rows.add_local_import(Row { before, ..row })?;
    w.locals.set_imports(home, id);
    Ok(())
}

/// The module that an import names, or rule 4.
fn check_module(w: &mut World, env: Env, item: ItemNode) -> Result<dc_tree::UnitId, Stop> {
    match w.modules.get(&item.path).copied() {
        Some(unit) => Ok(unit),
        None => {
            let at = here(env, item.path_at);
            w.refuse(4, at, Some(item.path))
        }
    }
}

/// The items of a list of numbers.
fn items_of(w: &World, list: dc_syntax::List) -> Result<Vec<ItemNode>, Stop> {
    let mut all = Vec::new(w.alloc);
    for n in w.pool.syntax.numbers(list) {
        if let Some(item) = w.pool.syntax.items.get(*n as usize) {
            all.push(*item)?;
        }
    }
    Ok(all)
}

/// `import a : f, b = c;`
pub(crate) fn import(w: &mut World, env: Env, m: u32) -> Result<Judged, Stop> {
    let Some(node) = w.pool.syntax.imports.get(m as usize).copied() else {
        return Err(Stop::NoMemory);
    };
    let items = items_of(w, node.items)?;
    let binds = items_of(w, node.binds)?;
    for (k, item) in items.as_slice().iter().enumerate() {
        let unit = check_module(w, env, *item)?;
        let is_last = k.saturating_add(1) == items.len();
        if let Some(name) = item.renamed {
            let at = here(env, item.renamed_at);
            declare(w, env, name, Symbol::Module(unit), at)?;
        } else if !is_last || binds.is_empty() {
            let form = if node.is_static {
                ImportForm::Static
            } else {
                ImportForm::Plain
            };
            let row = import_row(env, item.path, item.path_at, form, item.path_at);
            add_row(w, env, row)?;
        }
        if is_last {
            for bind in binds.as_slice() {
                add_bind(w, env, *item, *bind)?;
            }
        }
    }
    Ok(NOTHING)
}

fn add_bind(w: &mut World, env: Env, item: ItemNode, bind: ItemNode) -> Result<(), Stop> {
    let own = match bind.renamed {
        Some(name) => name,
        None => bind.path,
    };
    let form = ImportForm::Selected(own, bind.path);
    let row = import_row(env, item.path, item.path_at, form, bind.renamed_at);
    add_row(w, env, row)
}

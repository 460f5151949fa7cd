// Dotted names of modules.
use dc_model::{Dotted, Env, ImportForm, Package, RowId, Stop, World};
use dc_syntax::{List, NameId};

/// Whether a dotted name begins with a name of one part.
fn begins_with(path: &[u8], first: &[u8]) -> bool {
    path.starts_with(first)
        && match path.get(first.len()) {
            None => true,
            Some(b) => *b == b'.',
        }
}

/// Adds the paths of the plain and static imports of a chain that begin with a name.
fn add_paths(
    w: &World,
    last: Option<RowId>,
    name: NameId,
    paths: &mut Vec<NameId>,
) -> Result<(), Stop> {
    let mut at = last;
    for _ in 0..u64::MAX {
        let Some(row) = at.and_then(|id| w.rows.get(id)) else {
            break;
        };
        at = row.before;
        let Some(import) = row.import else {
            continue;
        };
        let is_whole = match import.form {
            ImportForm::Plain | ImportForm::Static => true,
            ImportForm::Renamed | ImportForm::Selected(_, _) => false,
        };
        let bytes = w.pool.names.bytes(import.path);
        if is_whole
            && begins_with(bytes, w.pool.names.bytes(name))
            && !paths.contains(&import.path)
        {
            paths.push(import.path)?;
        }
    }
    Ok(())
}

/// The imported modules whose names begin with a name, of the innermost scope that has any.
fn nearest_paths(w: &World, env: Env, name: NameId) -> Result<Vec<NameId>, Stop> {
    let mut paths = Vec::new(w.alloc);
    let mut block = env.block;
    for _ in 0..u64::MAX {
        let Some(known) = block.and_then(|id| w.locals.block(id)) else {
            break;
        };
        add_paths(w, known.imports, name, &mut paths)?;
        if !paths.is_empty() {
            return Ok(paths);
        }
        block = known.outer;
    }
    let mut at = Some(env.unit);
    for _ in 0..u64::MAX {
        let Some(id) = at else {
            break;
        };
        add_paths(w, w.rows.last_import(id), name, &mut paths)?;
        if !paths.is_empty() {
            break;
        }
        at = w.unit(id)?.outer;
    }
    Ok(paths)
}

/// The module of a dotted name, where it is one of the paths.
fn module_named(w: &World, paths: &[NameId], name: NameId) -> Option<dc_tree::UnitId> {
    if paths.contains(&name) {
        w.modules.get(&name).copied()
    } else {
        None
    }
}

/// What the first part of a module's name stands for.
pub(crate) fn package(w: &mut World, env: Env, name: NameId) -> Result<Option<Package>, Stop> {
    let paths = nearest_paths(w, env, name)?;
    if paths.is_empty() {
        return Ok(None);
    }
    let best = module_named(w, paths.as_slice(), name);
    let paths = w.add_paths(paths.as_slice())?;
    Ok(Some(Package {
        prefix: name,
        paths,
        best,
        rest: List { from: 0, len: 0 },
    }))
}

/// Whether some module's name goes on behind a dotted name, or is it.
fn has_longer(w: &World, package: Package, prefix: &[u8]) -> bool {
    w.paths_of(package.paths)
        .iter()
        .any(|path| begins_with(w.pool.names.bytes(*path), prefix))
}

/// A dotted name with one more part, where a module's name still goes on with it.
pub fn longer(w: &mut World, package: Package, next: Dotted) -> Result<Option<Package>, Stop> {
    let mut bytes = Vec::from_slice(w.alloc, w.pool.names.bytes(package.prefix))?;
    bytes.push(b'.')?;
    bytes.extend_from_slice(w.pool.names.bytes(next.name))?;
    if !has_longer(w, package, bytes.as_slice()) {
        return Ok(None);
    }
    let prefix = w.pool.names.number(bytes.as_slice())?;
    let known = {
        let paths = w.paths_of(package.paths);
        module_named(w, paths, prefix)
    };
    if known.is_some() {
        return Ok(Some(Package {
            prefix,
            best: known,
            rest: List { from: 0, len: 0 },
            ..package
        }));
    }
    let mut rest = Vec::from_slice(w.alloc, w.dotted_of(package.rest))?;
    rest.push(next)?;
    let rest = w.add_dotted(rest.as_slice())?;
    Ok(Some(Package {
        prefix,
        rest,
        ..package
    }))
}

/// Whether a dotted name is a module's and no part of a longer one.
pub fn is_finished(w: &World, package: Package) -> bool {
    let prefix = w.pool.names.bytes(package.prefix);
    let paths = w.paths_of(package.paths);
    paths.contains(&package.prefix)
        && !paths.iter().any(|path| {
            *path != package.prefix && begins_with(w.pool.names.bytes(*path), prefix)
        })
}

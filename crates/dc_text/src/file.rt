// Files as modules.
use crate::breach::refuse_file;
use crate::cut::{origin, tokens_of};
use crate::named::{default_name, name_of};
use crate::texts::Texts;
use dc_ast::ModuleTree;
use dc_model::{Stop, World};
use dc_parse::parse_module;
use dc_parse_expr::ExprReader;
use dc_syntax::{List, NameId, flat_module};
use dc_tree::{SpotId, Where};
use dc_types::{Fail, File};
use std::alloc::Global;

/// The most bytes that a file may have.
const MOST_BYTES: usize = 1_048_576;

/// A module that is given: its name, and its declarations as nodes.
#[derive(Clone, Copy)]
pub struct ModuleText {
    pub name: NameId,
    pub declarations: List,
}

/// The tree of a text, or nothing where it is too long for any.
fn tree_of(alloc: Global, text: &[u8]) -> Result<Option<ModuleTree>, Fail> {
    let Some(tokens) = tokens_of(alloc, text)? else {
        return Ok(None);
    };
    let start = origin(alloc);
    let tree = parse_module(alloc, &ExprReader { alloc }, &tokens, &start)?;
    Ok(Some(tree))
}

/// The spot of a file that is refused, which is named by its default name; its text is kept for
/// the report.
fn refused_spot(w: &mut World, texts: &mut Texts, file: &File) -> Result<SpotId, Stop> {
    let name = w.pool.names.number(default_name(file.path.as_slice()))?;
    let place = w.pool.places.module(name)?;
    texts.keep(&mut w.pool.names, place, file.bytes.as_slice())?;
    let spot = w.pool.places.file(place)?;
    Ok(spot)
}

/// Refuses a file as a whole.
pub(crate) fn refuse_whole<T>(
    w: &mut World,
    texts: &mut Texts,
    file: &File,
    rule: u8,
) -> Result<T, Stop> {
    let spot = refused_spot(w, texts, file)?;
    w.refuse(rule, Where { spot, at: 0 }, None)
}

/// The module of a file with this tree, or rule 2 where it has no name.
fn module_of(
    w: &mut World,
    texts: &mut Texts,
    file: &File,
    tree: &ModuleTree,
) -> Result<ModuleText, Stop> {
    let Some(name) = name_of(w, file.path.as_slice(), &tree.line)? else {
        return refuse_whole(w, texts, file, 2);
    };
    let declarations = flat_module(tree, &mut w.pool.syntax, &mut w.pool.names)?;
    let place = w.pool.places.module(name)?;
    texts.keep(&mut w.pool.names, place, file.bytes.as_slice())?;
    Ok(ModuleText { name, declarations })
}

/// Reads a file as a module (D specification, "Modules"). The first that holds refuses it:
///
/// - rule 24 at offset 0 where it has more than 1,048,576 bytes;
/// - rule 1 at the first offset at which no token, comment or white space begins;
/// - rule 23 at the first token that the compiler leaves out, with its text;
/// - rule 24 at the first token that nests deeper than 256;
/// - rule 2 at the first token behind the longest module that begins the text;
/// - rule 2 at offset 0 where the module has no line and the file's default name is no identifier.
///
/// The place of these names the module by the file's default name.
pub fn read_module(w: &mut World, texts: &mut Texts, file: &File) -> Result<ModuleText, Stop> {
    let text = file.bytes.as_slice();
    if MOST_BYTES < text.len() {
        return refuse_whole(w, texts, file, 24);
    }
    match tree_of(w.alloc, text) {
        Ok(Some(tree)) => module_of(w, texts, file, &tree),
        Ok(None) => refuse_whole(w, texts, file, 24),
        Err(fail) => {
            let spot = refused_spot(w, texts, file)?;
            refuse_file(w, spot, &fail)
        }
    }
}

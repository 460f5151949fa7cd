// The files of a program.
use crate::file::{ModuleText, read_module, refuse_whole};
use crate::texts::Texts;
use dc_model::{Stop, World};
use dc_tree::Where;
use dc_types::File;
use indexmap::IndexSet;

/// The most bytes that all files may have.
const MOST_BYTES: usize = 16_777_216;

/// Rule 3 for the first module that has the name of a built-in one, or of one before it.
fn check_names(w: &mut World, modules: &[ModuleText]) -> Result<(), Stop> {
    let mut known = IndexSet::new(w.alloc);
    let stdio = w.pool.names.number(b"std.stdio")?;
    known.insert(stdio)?;
    let conv = w.pool.names.number(b"std.conv")?;
    known.insert(conv)?;
    for module in modules {
        let is_new = known.insert(module.name)?;
        if !is_new {
            let place = w.pool.places.module(module.name)?;
            let spot = w.pool.places.file(place)?;
            return w.refuse(3, Where { spot, at: 0 }, Some(module.name));
        }
    }
    Ok(())
}

/// Reads the files of a program in their order, each as `read_module` does; rule 24 comes also
/// where the files up to this one have more than 16,777,216 bytes. Then rule 3 refuses the first
/// module that has the name of `std.stdio`, of `std.conv` or of a module before it, at offset 0
/// and with that name.
pub fn read_modules(
    w: &mut World,
    texts: &mut Texts,
    files: &[File],
) -> Result<Vec<ModuleText>, Stop> {
    let mut modules = Vec::new(w.alloc);
    let mut total: usize = 0;
    for file in files {
        total = total.saturating_add(file.bytes.len());
        if MOST_BYTES < total {
            return refuse_whole(w, texts, file, 24);
        }
        let module = read_module(w, texts, file)?;
        modules.push(module)?;
    }
    check_names(w, modules.as_slice())?;
    Ok(modules)
}

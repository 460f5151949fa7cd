// Programs of many modules that are made.
use dc_syntax::Want;
use dc_types::{File, Text};
use std::alloc::Global;

/// The text of a module: with the number of a file at its end each file names the next, and each
/// sums ten numbers while it is compiled.
fn module(alloc: Global, n: u64, count: u64) -> Result<String, Want> {
    let next = n.saturating_add(1);
    let mut text = format!(in alloc; "module g{n};\n")?;
    if n == 0 {
        text.push_str("import std.stdio;\n")?;
    }
    if next < count {
        text.push_str(format!(in alloc; "import g{next};\n")?.as_str())?;
    }
    let function = format!(in alloc;
        "int f{n}(int n) {{ int s = {n}; foreach (k; 0 .. n) s += k; return s; }}\n"
    )?;
    text.push_str(function.as_str())?;
    let constant = if next < count {
        format!(in alloc; "mixin(\"enum v{n} = f{n}(10)\" ~ \" + v{next}\" ~ \";\");\n")?
    } else {
        format!(in alloc; "mixin(\"enum v{n} = f{n}(10)\" ~ \"\" ~ \";\");\n")?
    };
    text.push_str(constant.as_str())?;
    if n == 0 {
        text.push_str("void main() { writeln(v0); }\n")?;
    }
    Ok(text)
}

/// The program of so many files, of which each names the next one's constant in a mixin.
pub(crate) fn made_files(alloc: Global, count: u64) -> Result<Vec<File>, Want> {
    let mut files = Vec::new(alloc);
    for n in 0..count {
        let text = module(alloc, n, count)?;
        let path = format!(in alloc; "g{n}.d")?;
        files.push(File {
            path: Text::copy_of(alloc, path.as_bytes())?,
            bytes: Text::copy_of(alloc, text.as_bytes())?,
        })?;
    }
    Ok(files)
}

/// What is printed before the output of such a program.
pub(crate) fn summary(alloc: Global, files: &[File]) -> Result<[String; 2], Want> {
    let mut bytes: usize = 0;
    for file in files {
        bytes = bytes.saturating_add(file.bytes.len());
    }
    let count = files.len();
    Ok([
        format!(in alloc; "modules: {count}\n")?,
        format!(in alloc; "bytes: {bytes}\n")?,
    ])
}

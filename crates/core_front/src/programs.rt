// What is built of modules.
ghost use Rattle.std.specs.Prelude.{◌≡◌, [], IfOk};
ghost use Rattle.core_front.specs.Building.{Gives};
ghost use Rattle.core_front.specs.Programs.{gives, parameter_of, each_parameter, is_plain, function_of, function_in, is_path, is_item, is_stdio, import_in, adds, program_of};

use crate::statements::{basic, is_int, statements};
use crate::{Function, Functions, Miss, Parameter, Program};
use dc_ast::{
    BasicType, Declaration, DeclarationForm, DeclarationKind, FunctionTree, ImportItem, ImportTree,
    Name, Parameter as Written, TypeTree, copy_name,
};
use dc_types::Items;
use std::alloc::Global;

/// Whether a function with a result of this type gives an `int`, or nothing. No other type is built.
#[tactic(auto, unfolding(crate::specs::Programs::gives))]
fn gives(of: &Option<TypeTree>) -> Option<bool>
    ensures { result ≡ gives of.now }
{
    match of {
        None => None,
        Some(t) => match basic(t) {
            Some(BasicType::Int) => Some(true),
            Some(BasicType::Void) => Some(false),
            _ => None,
        },
    }
}

#[tactic(auto, unfolding(crate::specs::Programs::parameter_of, crate::specs::Statements::is_int))]
fn parameter(alloc: Global, p: &Written) -> Result<Parameter, Miss>
    ensures { Gives (parameter_of p.now) result }
{
    if p.is_ref || p.storage.is_some() || basic(&p.of) != Some(BasicType::Int) {
        return Err(Miss::Unbuilt(p.at));
    }
    Ok(Parameter {
        at: p.at,
        name: copy_name(alloc, &p.name)?,
    })
}

fn parameters(alloc: Global, written: &[Written]) -> Result<Items<Parameter>, Miss>
    ensures { Gives (each_parameter [] written.now) result }
{
    let mut all = Items::new(alloc);
    for p in written {
        let parameter = parameter(alloc, p)?;
        all.push(parameter)?;
    }
    Ok(all)
}

#[tactic(auto, unfolding(crate::specs::Programs::is_plain))]
fn is_plain(f: &FunctionTree) -> bool
    ensures { result ≡ is_plain f.now }
{
    f.template_parameters.is_none() && f.constraint.is_none() && f.attributes.is_empty()
}

/// What a function is built as.
#[tactic(auto, unfolding(crate::specs::Programs::function_of))]
fn function(alloc: Global, at: u32, f: &FunctionTree) -> Result<Function, Miss>
    ensures gives { Gives (function_of at f.now) result }
    ensures named { IfOk result (λ g. g.name.spelling ≡ f.now.name.spelling) }
    ensures placed { IfOk result (λ g. g.at ≡ at) }
{
    if !is_plain(f) {
        return Err(Miss::Unbuilt(at));
    }
    let Some(gives_int) = gives(&f.result) else {
        return Err(Miss::Unbuilt(at));
    };
    let parameters = parameters(alloc, f.parameters.as_slice())?;
    let body = statements(alloc, f.body.as_slice())?;
    Ok(Function {
        at,
        gives_int,
        name: copy_name(alloc, &f.name)?,
        parameters,
        body,
    })
}

/// The program with a function more, where its name and its place are new.
#[tactic(auto, unfolding(crate::specs::Programs::function_in))]
fn with_function(
    alloc: Global,
    at: u32,
    f: &FunctionTree,
    program: Program,
) -> Result<Program, Miss>
    ensures { Gives (function_in at f.now program) result }
{
    let Program { prints, functions } = program;
    if functions.named(&f.name.spelling).is_some() || functions.at(at).is_some() {
        return Err(Miss::Unbuilt(at));
    }
    let function = function(alloc, at, f)?;
    let functions = functions.with(alloc, function)?;
    Ok(Program { prints, functions })
}

/// Whether a path is `std.stdio`.
fn is_path(path: &[Name]) -> bool
    ensures { result ≡ is_path path.now }
{
    match path {
        [first, second] => {
            first.spelling.as_slice() == b"std".as_slice()
                && second.spelling.as_slice() == b"stdio".as_slice()
        }
        _ => false,
    }
}

fn is_item(items: &[ImportItem]) -> bool
    ensures { result ≡ is_item items.now }
{
    match items {
        [item] => item.renamed.is_none() && is_path(item.path.as_slice()),
        _ => false,
    }
}

/// Whether this is `import std.stdio;`.
#[tactic(auto, unfolding(crate::specs::Programs::is_stdio))]
fn is_stdio(import: &ImportTree) -> bool
    ensures { result ≡ is_stdio import.now }
{
    !import.is_static && import.binds.is_empty() && is_item(import.items.as_slice())
}

/// The program that prints, where the import stands first.
#[tactic(auto, unfolding(crate::specs::Programs::import_in))]
fn with_import(at: u32, import: &ImportTree, program: Program) -> Result<Program, Miss>
    ensures { Gives (import_in at import.now program) result }
{
    let is_fresh = !program.prints && program.functions.as_slice().is_empty();
    if !is_fresh || !is_stdio(import) {
        return Err(Miss::Unbuilt(at));
    }
    Ok(Program {
        prints: true,
        functions: program.functions,
    })
}

/// The program with what a declaration is built as.
#[tactic(auto, unfolding(crate::specs::Programs::adds), using(crate::proofs::OtherDeclarations::no_form, crate::proofs::OtherDeclarations::no_kind))]
fn with(alloc: Global, d: &Declaration, program: Program) -> Result<Program, Miss>
    ensures { Gives (adds d.now program) result }
{
    let DeclarationForm::Plain(attributes, plain) = &d.form else {
        return Err(Miss::Unbuilt(d.at));
    };
    if !attributes.is_empty() {
        return Err(Miss::Unbuilt(d.at));
    }
    match &plain.kind {
        DeclarationKind::Import(import) => with_import(plain.at, import, program),
        DeclarationKind::Function(f) => with_function(alloc, plain.at, f, program),
        _ => Err(Miss::Unbuilt(plain.at)),
    }
}

/// What the declarations of a module are built as.
pub fn program(alloc: Global, declarations: &[Declaration]) -> Result<Program, Miss>
    ensures { Gives (program_of declarations.now) result }
{
    let mut program = Program {
        prints: false,
        functions: Functions::new(alloc),
    };
    for d in declarations {
        program = with(alloc, d, program)?;
    }
    Ok(program)
}

// From the tree of a module to its program.
ghost use Rattle.std.specs.Prelude.{◌≡◌, ◌∷◌, [], Err, IfOk};
ghost use Rattle.core_tree.specs.Typed.{AreTyped};
ghost use Rattle.core_front.specs.Judging.{Answers};
ghost use Rattle.core_front.specs.Front.{judged_of, spelling_at, unbuilt};

use crate::judge_programs::resolved;
use crate::programs::program;
use crate::{Known, Miss, Program, Resolution};
use dc_ast::ModuleTree;
use dc_token::{Token, Tokens};
use dc_types::{Fail, Items, Place, Refusal, Step, Text};
use std::alloc::Global;

/// The spelling of the token that begins at an offset in the text, counted in bytes from 0, or nothing where none does.
pub fn spelling_at(tokens: &[Token], offset: u32) -> &[u8]
    ensures { result.now ≡ spelling_at tokens.now offset }
{
    let mut rest = tokens;
    while let [token, more @ ..] = rest {
        if token.start == offset {
            return token.spelling.as_slice();
        }
        rest = more;
    }
    b""
}

/// The refusal of the form that begins at an offset, which isn't built yet.
#[tactic(auto, unfolding(crate::specs::Front::unbuilt))]
fn unbuilt<T>(alloc: Global, home: &[u8], tokens: &Tokens, at: u32) -> Result<T, Fail>
    ensures { Answers (Err (unbuilt home.now tokens.now at)) result }
{
    let mut steps = Items::new(alloc);
    steps.push(Step::At(at))?;
    let place = Place {
        module: Text::copy_of(alloc, home)?,
        steps,
    };
    let detail = Text::copy_of(alloc, spelling_at(tokens.as_slice(), at))?;
    Err(Fail::Refused(Refusal {
        rule: 23,
        place,
        detail,
    }))
}

/// What the module of this name, with these tokens and this tree, is resolved to: bodies and a start that are typed, closed
/// and within the limit on weights (D specification, "Functions", "Statements", "Expressions"). The refusals are in this
/// order, and by each rule at the first place in the text:
///
/// - rule 23 where a form isn't built yet, with the token that begins it;
/// - for each function in the order of the text: rule 7 where a name is declared twice, rule 5 where a name isn't there,
///   rule 11 where a call has the wrong arguments, rule 10 where a value is missing or too much; then rule 25 where an
///   `int` function may come to its end, and rule 18 where it weighs more than 4,194,304;
/// - rule 20 where no `main` without parameters is there.
#[tactic(auto, unfolding(crate::specs::Front::judged_of))]
pub fn judge(
    alloc: Global,
    home: &[u8],
    tokens: &Tokens,
    tree: &ModuleTree,
) -> Result<Resolution, Fail>
    ensures answers { Answers (judged_of home.now tokens.now tree.now) result }
    ensures typed { IfOk result (λ r. AreTyped r.bodies (r.start ∷ [])) }
{
    if let Some(line) = &tree.line {
        return unbuilt(alloc, home, tokens, line.at);
    }
    let built = match program(alloc, tree.declarations.as_slice()) {
        Ok(built) => built,
        Err(Miss::Unbuilt(at)) => return unbuilt(alloc, home, tokens, at),
        Err(Miss::NoMemory) => return Err(Fail::NoMemory),
    };
    let Program { prints, functions } = built;
    let known = Known {
        home: Text::copy_of(alloc, home)?,
        prints,
        functions,
    };
    resolved(alloc, &known)
}

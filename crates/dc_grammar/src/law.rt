// What holds of the grammar.
ghost use Rattle.dc_grammar.specs.Dangling.{ElseIsNearest};
ghost use Rattle.dc_grammar.specs.Nesting.{PastExactly};
ghost use Rattle.dc_grammar.specs.NewForms.{NewDivides};
ghost use Rattle.dc_grammar.specs.Reads.{OneTree, ExprFirst};
ghost use Rattle.dc_grammar.specs.Refusals.{ListsDivide, NearestIf, OneItem, VariableFirst};

/// A list of tokens has at most one tree as an expression, as a type and as an argument.
pub fn one_tree()
    ensures { OneTree }
{}

/// An argument is the expression that it reads as, and a type where it reads as none.
pub fn expr_first()
    ensures { ExprFirst }
{}

/// A token past a limit stands exactly where the nesting of the text is above it.
pub fn past_exactly()
    ensures { PastExactly }
{}

/// A list of tokens is one module, one list of declarations or one list of statements, or it is refused at one token:
/// the first behind the longest such list that begins the tokens.
pub fn lists_divide()
    ensures { ListsDivide }
{}

/// A list of tokens is at most one statement, and at most one declaration.
pub fn one_item()
    ensures { OneItem }
{}

/// A statement that reads as a variable is one.
pub fn variable_first()
    ensures { VariableFirst }
{}

/// An `else` belongs to the nearest `if`.
pub fn nearest_if()
    ensures { NearestIf }
{}

/// In every tree of the grammar an `else` belongs to the nearest `if`, `static if` or `version`: no branch before it
/// would take it. And the index of the grammar says whether a statement or declaration would take one that follows.
pub fn else_is_nearest()
    ensures { ElseIsNearest }
{}

/// What a `new` makes: by `new Type(x)` where a type and one argument stand there, and by `new T[n]` elsewhere.
pub fn new_divides()
    ensures { NewDivides }
{}

// Tokens that the compiler leaves out, and how deep a text nests.
ghost use Rattle.std.specs.Prelude.{◌≡◌, ◌<◌, ◌-◌, [], ◌∷◌, true, false, min};
ghost use Rattle.std.specs.Option.{option_copied};
ghost use Rattle.dc_grammar.specs.Nesting as spec;
ghost use Rattle.dc_grammar.specs.Nesting.{IsTable, stack};

use crate::{Terminal, terminal_of};
use dc_token::{Token, TokenKind, Tokens};

/// The first token that the compiler leaves out.
pub fn first_outside(tokens: &[Token]) -> Option<&Token>
    ensures { option_copied result ≡ spec.first_outside tokens.now }
{
    let mut rest = tokens;
    while let [token, more @ ..] = rest {
        if is_outside(token.kind) {
            return Some(token);
        }
        rest = more;
    }
    None
}

fn is_outside(kind: TokenKind) -> bool
    ensures { result ≡ spec.is_outside kind }
{
    matches!(kind, TokenKind::Outside)
}

/// What a token does to the levels of a text.
#[derive(Clone, Copy)]
pub enum Effect {
    /// It begins a level.
    Open,
    /// It ends the innermost level.
    Close,
    /// It ends the innermost level, and the one around it counts from 0 again.
    CloseBrace,
    /// The level counts from 0 again.
    Reset,
    /// It adds 1 to the count of the level.
    Count,
    Nothing,
}

fn ends_operand(terminal: Terminal) -> bool
    ensures { result ≡ spec.ends_operand terminal }
{
    matches!(
        terminal,
        Terminal::Name
            | Terminal::Integer
            | Terminal::Str
            | Terminal::Character
            | Terminal::RightParen
            | Terminal::RightBracket
            | Terminal::Dollar
    )
}

fn sign_effect(behind_operand: bool) -> Effect
    ensures { result ≡ spec.sign_effect behind_operand }
{
    if behind_operand {
        Effect::Nothing
    } else {
        Effect::Count
    }
}

fn effect_of(before: Terminal, terminal: Terminal) -> Effect
    ensures { result ≡ spec.effect_of before terminal }
{
    match terminal {
        Terminal::LeftParen | Terminal::LeftBracket | Terminal::LeftBrace => Effect::Open,
        Terminal::RightParen | Terminal::RightBracket => Effect::Close,
        Terminal::RightBrace => Effect::CloseBrace,
        Terminal::Semicolon | Terminal::Comma => Effect::Reset,
        Terminal::If
        | Terminal::While
        | Terminal::Do
        | Terminal::For
        | Terminal::Foreach
        | Terminal::Switch
        | Terminal::Version
        | Terminal::Cast
        | Terminal::Question
        | Terminal::Equals
        | Terminal::PlusEqual
        | Terminal::MinusEqual
        | Terminal::StarEqual
        | Terminal::SlashEqual
        | Terminal::PercentEqual
        | Terminal::AmpersandEqual
        | Terminal::BarEqual
        | Terminal::CaretEqual
        | Terminal::TildeEqual
        | Terminal::ShiftLeftEqual
        | Terminal::ShiftRightEqual
        | Terminal::ShiftRightZerosEqual => Effect::Count,
        Terminal::Minus
        | Terminal::Plus
        | Terminal::Not
        | Terminal::Tilde
        | Terminal::PlusPlus
        | Terminal::MinusMinus => sign_effect(ends_operand(before)),
        _ => Effect::Nothing,
    }
}

/// The counts of the levels that are open.
#[derive(Drop)]
struct Levels {
    /// One for each level, the outermost first.
    counts: [u64; 257],
    /// How many brackets are open.
    open: usize,
    /// The number of open brackets, and all counts.
    number: u64,
}

impl Levels {
    fn new() -> Levels
        ensures table { IsTable result.counts result.open result.number }
        ensures levels { stack result.counts result.open ≡ 0 ∷ [] }
    {
        Levels {
            counts: [0; 257],
            open: 0,
            number: 0,
        }
    }

    fn begin(&mut self)
        requires table { IsTable self.old.counts self.old.open self.old.number }
        requires room { self.old.number < 256 }
        ensures table { IsTable self.new.counts self.new.open self.new.number }
        ensures levels { stack self.new.counts self.new.open ≡ 0 ∷ stack self.old.counts self.old.open }
    {
        self.open += 1;
        self.counts[self.open] = 0;
        self.number += 1;
    }

    fn reset(&mut self)
        requires table { IsTable self.old.counts self.old.open self.old.number }
        ensures table { IsTable self.new.counts self.new.open self.new.number }
        ensures levels { stack self.new.counts self.new.open ≡ spec.after Effect.Reset (stack self.old.counts self.old.open) }
        ensures open { self.new.open ≡ self.old.open }
    {
        self.number -= self.counts[self.open];
        self.counts[self.open] = 0;
    }

    fn count(&mut self)
        requires table { IsTable self.old.counts self.old.open self.old.number }
        requires room { self.old.number < 256 }
        ensures table { IsTable self.new.counts self.new.open self.new.number }
        ensures levels { stack self.new.counts self.new.open ≡ spec.after Effect.Count (stack self.old.counts self.old.open) }
    {
        self.counts[self.open] += 1;
        self.number += 1;
    }

    fn end(&mut self)
        requires table { IsTable self.old.counts self.old.open self.old.number }
        requires open { 0 < self.old.open }
        ensures table { IsTable self.new.counts self.new.open self.new.number }
        ensures levels { stack self.new.counts self.new.open ≡ stack self.old.counts (self.old.open - 1) }
    {
        self.number -= self.counts[self.open] + 1;
        self.open -= 1;
    }

    /// Takes an effect in, if the number stays within the limit; false if it passes it.
    fn take(&mut self, effect: Effect) -> bool
        requires table { IsTable self.old.counts self.old.open self.old.number }
        ensures within { result ≡ true → IsTable self.new.counts self.new.open self.new.number }
        ensures levels { result ≡ true → stack self.new.counts self.new.open ≡ spec.after effect (stack self.old.counts self.old.open) }
        ensures past { result ≡ false → 256 < spec.number_of (spec.after effect (stack self.old.counts self.old.open)) }
    {
        match effect {
            Effect::Open => {
                if self.number == 256 {
                    return false;
                }
                self.begin();
                true
            }
            Effect::Close => {
                if self.open > 0 {
                    self.end();
                }
                true
            }
            Effect::CloseBrace => {
                if self.open > 0 {
                    self.end();
                    self.reset();
                }
                true
            }
            Effect::Reset => {
                self.reset();
                true
            }
            Effect::Count => {
                if self.number == 256 {
                    return false;
                }
                self.count();
                true
            }
            Effect::Nothing => true,
        }
    }
}

/// The first token at which more than 256 levels are open.
pub fn first_past(tokens: &[Token]) -> Option<&Token>
    ensures { option_copied result ≡ spec.first_past 256 tokens.now }
{
    let mut levels = Levels::new();
    let mut before = Terminal::End;
    let mut rest = tokens;
    while let [token, more @ ..] = rest {
        let terminal = terminal_of(token);
        if !levels.take(effect_of(before, terminal)) {
            return Some(token);
        }
        before = terminal;
        rest = more;
    }
    None
}

/// How deep the text nests: open brackets and the counts of the levels that they make, at the token where these are
/// most. Every number above 256 is given as 257.
pub fn nesting(tokens: &Tokens) -> u64
    ensures { result ≡ min (spec.nesting tokens.now) 257 }
{
    let mut levels = Levels::new();
    let mut before = Terminal::End;
    let mut most = 0;
    let mut rest = tokens.as_slice();
    while let [token, more @ ..] = rest {
        let terminal = terminal_of(token);
        if !levels.take(effect_of(before, terminal)) {
            return 257;
        }
        if most < levels.number {
            most = levels.number;
        }
        before = terminal;
        rest = more;
    }
    most
}

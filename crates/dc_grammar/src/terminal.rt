// The terminals of the grammar.
ghost use Rattle.std.specs.Prelude.{◌≡◌, ◌∷◌, [], map};
ghost use Rattle.dc_grammar.specs.Terminals as terminals;

use dc_token::{Token, TokenKind};

/// What a token is to the grammar: a kind of name or literal, a keyword or a sign.
#[derive(Clone, Copy)]
pub enum Terminal {
    Name,
    Integer,
    Str,
    Character,
    Alias,
    Assert,
    Auto,
    Bool,
    Break,
    Byte,
    Case,
    Cast,
    Char,
    Const,
    Continue,
    Default,
    Do,
    Else,
    Enum,
    False,
    For,
    Foreach,
    If,
    Immutable,
    Import,
    Int,
    Is,
    Long,
    Mixin,
    Module,
    New,
    Nothrow,
    Null,
    Private,
    Public,
    Pure,
    Ref,
    Return,
    Short,
    Static,
    Struct,
    Switch,
    Template,
    This,
    True,
    TypeOf,
    Ubyte,
    Uint,
    Ulong,
    Ushort,
    Version,
    Void,
    While,
    Traits,
    /// `(`
    LeftParen,
    /// `)`
    RightParen,
    /// `[`
    LeftBracket,
    /// `]`
    RightBracket,
    /// `{`
    LeftBrace,
    /// `}`
    RightBrace,
    /// `;`
    Semicolon,
    /// `,`
    Comma,
    /// `.`
    Dot,
    /// `..`
    DotDot,
    /// `:`
    Colon,
    /// `$`
    Dollar,
    /// `?`
    Question,
    /// `!`
    Not,
    /// `@`
    At,
    /// `=`
    Equals,
    /// `==`
    EqualEqual,
    /// `!=`
    NotEqual,
    /// `<`
    Less,
    /// `<=`
    LessEqual,
    /// `>`
    Greater,
    /// `>=`
    GreaterEqual,
    /// `+`
    Plus,
    /// `-`
    Minus,
    /// `*`
    Star,
    /// `/`
    Slash,
    /// `%`
    Percent,
    /// `&`
    Ampersand,
    /// `|`
    Bar,
    /// `^`
    Caret,
    /// `~`
    Tilde,
    /// `<<`
    ShiftLeft,
    /// `>>`
    ShiftRight,
    /// `>>>`
    ShiftRightZeros,
    /// `&&`
    AndAnd,
    /// `||`
    OrOr,
    /// `++`
    PlusPlus,
    /// `--`
    MinusMinus,
    /// `+=`
    PlusEqual,
    /// `-=`
    MinusEqual,
    /// `*=`
    StarEqual,
    /// `/=`
    SlashEqual,
    /// `%=`
    PercentEqual,
    /// `&=`
    AmpersandEqual,
    /// `|=`
    BarEqual,
    /// `^=`
    CaretEqual,
    /// `~=`
    TildeEqual,
    /// `<<=`
    ShiftLeftEqual,
    /// `>>=`
    ShiftRightEqual,
    /// `>>>=`
    ShiftRightZerosEqual,
    /// A token that the compiler leaves out.
    Outside,
    /// Behind the last token.
    End,
}

/// The keywords.
pub const WORDS: [(&[u8], Terminal); 50] = [
    (b"alias", Terminal::Alias),
    (b"assert", Terminal::Assert),
    (b"auto", Terminal::Auto),
    (b"bool", Terminal::Bool),
    (b"break", Terminal::Break),
    (b"byte", Terminal::Byte),
    (b"case", Terminal::Case),
    (b"cast", Terminal::Cast),
    (b"char", Terminal::Char),
    (b"const", Terminal::Const),
    (b"continue", Terminal::Continue),
    (b"default", Terminal::Default),
    (b"do", Terminal::Do),
    (b"else", Terminal::Else),
    (b"enum", Terminal::Enum),
    (b"false", Terminal::False),
    (b"for", Terminal::For),
    (b"foreach", Terminal::Foreach),
    (b"if", Terminal::If),
    (b"immutable", Terminal::Immutable),
    (b"import", Terminal::Import),
    (b"int", Terminal::Int),
    (b"is", Terminal::Is),
    (b"long", Terminal::Long),
    (b"mixin", Terminal::Mixin),
    (b"module", Terminal::Module),
    (b"new", Terminal::New),
    (b"nothrow", Terminal::Nothrow),
    (b"null", Terminal::Null),
    (b"private", Terminal::Private),
    (b"public", Terminal::Public),
    (b"pure", Terminal::Pure),
    (b"ref", Terminal::Ref),
    (b"return", Terminal::Return),
    (b"short", Terminal::Short),
    (b"static", Terminal::Static),
    (b"struct", Terminal::Struct),
    (b"switch", Terminal::Switch),
    (b"template", Terminal::Template),
    (b"this", Terminal::This),
    (b"true", Terminal::True),
    (b"typeof", Terminal::TypeOf),
    (b"ubyte", Terminal::Ubyte),
    (b"uint", Terminal::Uint),
    (b"ulong", Terminal::Ulong),
    (b"ushort", Terminal::Ushort),
    (b"version", Terminal::Version),
    (b"void", Terminal::Void),
    (b"while", Terminal::While),
    (b"__traits", Terminal::Traits),
];

/// The signs.
pub const SIGNS: [(&[u8], Terminal); 50] = [
    (b"(", Terminal::LeftParen),
    (b")", Terminal::RightParen),
    (b"[", Terminal::LeftBracket),
    (b"]", Terminal::RightBracket),
    (b"{", Terminal::LeftBrace),
    (b"}", Terminal::RightBrace),
    (b";", Terminal::Semicolon),
    (b",", Terminal::Comma),
    (b".", Terminal::Dot),
    (b"..", Terminal::DotDot),
    (b":", Terminal::Colon),
    (b"$", Terminal::Dollar),
    (b"?", Terminal::Question),
    (b"!", Terminal::Not),
    (b"@", Terminal::At),
    (b"=", Terminal::Equals),
    (b"==", Terminal::EqualEqual),
    (b"!=", Terminal::NotEqual),
    (b"<", Terminal::Less),
    (b"<=", Terminal::LessEqual),
    (b">", Terminal::Greater),
    (b">=", Terminal::GreaterEqual),
    (b"+", Terminal::Plus),
    (b"-", Terminal::Minus),
    (b"*", Terminal::Star),
    (b"/", Terminal::Slash),
    (b"%", Terminal::Percent),
    (b"&", Terminal::Ampersand),
    (b"|", Terminal::Bar),
    (b"^", Terminal::Caret),
    (b"~", Terminal::Tilde),
    (b"<<", Terminal::ShiftLeft),
    (b">>", Terminal::ShiftRight),
    (b">>>", Terminal::ShiftRightZeros),
    (b"&&", Terminal::AndAnd),
    (b"||", Terminal::OrOr),
    (b"++", Terminal::PlusPlus),
    (b"--", Terminal::MinusMinus),
    (b"+=", Terminal::PlusEqual),
    (b"-=", Terminal::MinusEqual),
    (b"*=", Terminal::StarEqual),
    (b"/=", Terminal::SlashEqual),
    (b"%=", Terminal::PercentEqual),
    (b"&=", Terminal::AmpersandEqual),
    (b"|=", Terminal::BarEqual),
    (b"^=", Terminal::CaretEqual),
    (b"~=", Terminal::TildeEqual),
    (b"<<=", Terminal::ShiftLeftEqual),
    (b">>=", Terminal::ShiftRightEqual),
    (b">>>=", Terminal::ShiftRightZerosEqual),
];

/// Whether the two are one.
#[tactic(auto, unfolding(crate::specs::Terminals::same_terminal))]
pub fn same_terminal(a: Terminal, b: Terminal) -> bool
    ensures { result ≡ terminals.same_terminal a b }
{
    a == b
}

fn find(mut table: &[(&[u8], Terminal)], spelling: &[u8]) -> Terminal
    ensures { result ≡ terminals.find (map (λ row. (row.0.now, row.1)) table.entry.now) spelling.now }
{
    while let [(word, terminal), rest @ ..] = table {
        if *word == spelling {
            return *terminal;
        }
        table = rest;
    }
    Terminal::Outside
}

/// A keyword, found at once where it has at most 3 bytes.
#[tactic(auto, using(crate::proofs::Spelled::words_spelled), unfolding(crate::specs::Terminals::word))]
fn word_to_3(spelling: &[u8]) -> Terminal
    ensures { result ≡ terminals.word spelling.now }
{
    match spelling {
        [b'd', b'o'] => Terminal::Do,
        [b'f', b'o', b'r'] => Terminal::For,
        [b'i', b'f'] => Terminal::If,
        [b'i', b'n', b't'] => Terminal::Int,
        [b'i', b's'] => Terminal::Is,
        [b'n', b'e', b'w'] => Terminal::New,
        [b'r', b'e', b'f'] => Terminal::Ref,
        _ => find(&WORDS, spelling),
    }
}

/// A keyword, found at once where it has 4 bytes.
#[tactic(auto, using(crate::proofs::Spelled::words_spelled), unfolding(crate::specs::Terminals::word))]
fn word_of_4(spelling: &[u8]) -> Terminal
    ensures { result ≡ terminals.word spelling.now }
{
    match spelling {
        [b'a', b'u', b't', b'o'] => Terminal::Auto,
        [b'b', b'o', b'o', b'l'] => Terminal::Bool,
        [b'b', b'y', b't', b'e'] => Terminal::Byte,
        [b'c', b'a', b's', b'e'] => Terminal::Case,
        [b'c', b'a', b's', b't'] => Terminal::Cast,
        [b'c', b'h', b'a', b'r'] => Terminal::Char,
        [b'e', b'l', b's', b'e'] => Terminal::Else,
        [b'e', b'n', b'u', b'm'] => Terminal::Enum,
        [b'l', b'o', b'n', b'g'] => Terminal::Long,
        [b'n', b'u', b'l', b'l'] => Terminal::Null,
        [b'p', b'u', b'r', b'e'] => Terminal::Pure,
        [b't', b'h', b'i', b's'] => Terminal::This,
        [b't', b'r', b'u', b'e'] => Terminal::True,
        [b'u', b'i', b'n', b't'] => Terminal::Uint,
        [b'v', b'o', b'i', b'd'] => Terminal::Void,
        _ => find(&WORDS, spelling),
    }
}

/// A keyword, found at once where it has 5 bytes.
#[tactic(auto, using(crate::proofs::Spelled::words_spelled), unfolding(crate::specs::Terminals::word))]
fn word_of_5(spelling: &[u8]) -> Terminal
    ensures { result ≡ terminals.word spelling.now }
{
    match spelling {
        [b'a', b'l', b'i', b'a', b's'] => Terminal::Alias,
        [b'b', b'r', b'e', b'a', b'k'] => Terminal::Break,
        [b'c', b'o', b'n', b's', b't'] => Terminal::Const,
        [b'f', b'a', b'l', b's', b'e'] => Terminal::False,
        [b'm', b'i', b'x', b'i', b'n'] => Terminal::Mixin,
        [b's', b'h', b'o', b'r', b't'] => Terminal::Short,
        [b'u', b'b', b'y', b't', b'e'] => Terminal::Ubyte,
        [b'u', b'l', b'o', b'n', b'g'] => Terminal::Ulong,
        [b'w', b'h', b'i', b'l', b'e'] => Terminal::While,
        _ => find(&WORDS, spelling),
    }
}

/// A keyword, found at once where it has 6 bytes.
#[tactic(auto, using(crate::proofs::Spelled::words_spelled), unfolding(crate::specs::Terminals::word))]
fn word_of_6(spelling: &[u8]) -> Terminal
    ensures { result ≡ terminals.word spelling.now }
{
    match spelling {
        [b'a', b's', b's', b'e', b'r', b't'] => Terminal::Assert,
        [b'i', b'm', b'p', b'o', b'r', b't'] => Terminal::Import,
        [b'm', b'o', b'd', b'u', b'l', b'e'] => Terminal::Module,
        [b'p', b'u', b'b', b'l', b'i', b'c'] => Terminal::Public,
        [b'r', b'e', b't', b'u', b'r', b'n'] => Terminal::Return,
        [b's', b't', b'a', b't', b'i', b'c'] => Terminal::Static,
        [b's', b't', b'r', b'u', b'c', b't'] => Terminal::Struct,
        [b's', b'w', b'i', b't', b'c', b'h'] => Terminal::Switch,
        [b't', b'y', b'p', b'e', b'o', b'f'] => Terminal::TypeOf,
        [b'u', b's', b'h', b'o', b'r', b't'] => Terminal::Ushort,
        _ => find(&WORDS, spelling),
    }
}

/// A keyword, found at once where it has at least 7 bytes.
#[tactic(auto, using(crate::proofs::Spelled::words_spelled), unfolding(crate::specs::Terminals::word))]
fn word_from_7(spelling: &[u8]) -> Terminal
    ensures { result ≡ terminals.word spelling.now }
{
    match spelling {
        [b'c', b'o', b'n', b't', b'i', b'n', b'u', b'e'] => Terminal::Continue,
        [b'd', b'e', b'f', b'a', b'u', b'l', b't'] => Terminal::Default,
        [b'f', b'o', b'r', b'e', b'a', b'c', b'h'] => Terminal::Foreach,
        [b'i', b'm', b'm', b'u', b't', b'a', b'b', b'l', b'e'] => Terminal::Immutable,
        [b'n', b'o', b't', b'h', b'r', b'o', b'w'] => Terminal::Nothrow,
        [b'p', b'r', b'i', b'v', b'a', b't', b'e'] => Terminal::Private,
        [b't', b'e', b'm', b'p', b'l', b'a', b't', b'e'] => Terminal::Template,
        [b'v', b'e', b'r', b's', b'i', b'o', b'n'] => Terminal::Version,
        [b'_', b'_', b't', b'r', b'a', b'i', b't', b's'] => Terminal::Traits,
        _ => find(&WORDS, spelling),
    }
}

fn word(spelling: &[u8]) -> Terminal
    ensures { result ≡ terminals.word spelling.now }
{
    match spelling.len() {
        4 => word_of_4(spelling),
        5 => word_of_5(spelling),
        6 => word_of_6(spelling),
        len => {
            if len < 4 {
                word_to_3(spelling)
            } else {
                word_from_7(spelling)
            }
        }
    }
}

/// The sign of one byte.
#[tactic(auto, using(crate::proofs::Spelled::signs_spelled), unfolding(crate::specs::Terminals::sign))]
fn byte_sign(byte: u8) -> Terminal
    ensures { result ≡ terminals.sign (byte ∷ []) }
{
    match byte {
        b'(' => Terminal::LeftParen,
        b')' => Terminal::RightParen,
        b'[' => Terminal::LeftBracket,
        b']' => Terminal::RightBracket,
        b'{' => Terminal::LeftBrace,
        b'}' => Terminal::RightBrace,
        b';' => Terminal::Semicolon,
        b',' => Terminal::Comma,
        b'.' => Terminal::Dot,
        b':' => Terminal::Colon,
        b'$' => Terminal::Dollar,
        b'?' => Terminal::Question,
        b'!' => Terminal::Not,
        b'@' => Terminal::At,
        b'=' => Terminal::Equals,
        b'<' => Terminal::Less,
        b'>' => Terminal::Greater,
        b'+' => Terminal::Plus,
        b'-' => Terminal::Minus,
        b'*' => Terminal::Star,
        b'/' => Terminal::Slash,
        b'%' => Terminal::Percent,
        b'&' => Terminal::Ampersand,
        b'|' => Terminal::Bar,
        b'^' => Terminal::Caret,
        b'~' => Terminal::Tilde,
        _ => find(&SIGNS, &[byte]),
    }
}

#[tactic(auto, using(crate::proofs::Spelled::signs_spelled), unfolding(crate::specs::Terminals::sign))]
fn sign(spelling: &[u8]) -> Terminal
    ensures { result ≡ terminals.sign spelling.now }
{
    match spelling {
        [byte] => byte_sign(*byte),
        _ => find(&SIGNS, spelling),
    }
}

/// What the token is to the grammar.
#[tactic(auto, unfolding(crate::specs::Terminals::terminal_of))]
pub fn terminal_of(token: &Token) -> Terminal
    ensures { result ≡ terminals.terminal_of token.now }
{
    match token.kind {
        TokenKind::Id => Terminal::Name,
        TokenKind::Used => word(token.spelling.as_slice()),
        TokenKind::Integer => Terminal::Integer,
        TokenKind::Str => Terminal::Str,
        TokenKind::Character => Terminal::Character,
        TokenKind::Sign => sign(token.spelling.as_slice()),
        TokenKind::Outside => Terminal::Outside,
    }
}

/// The first terminal.
pub fn ahead(tokens: &[Token]) -> Terminal
    ensures { result ≡ terminals.ahead tokens.now }
{
    match tokens {
        [] => Terminal::End,
        [token, ..] => terminal_of(token),
    }
}

/// The offset of the first token, 0 where there is none.
pub fn start_of(tokens: &[Token]) -> u32
    ensures { result ≡ terminals.start_of tokens.now }
{
    match tokens {
        [] => 0,
        [token, ..] => token.start,
    }
}

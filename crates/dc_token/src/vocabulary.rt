// Characters and words (D specification, "Lexical", "Identifiers" and "Keywords").

/// What a character does in an identifier. The classes of letters are those of Unicode's XID.
#[derive(Clone, Copy)]
pub enum Class {
    /// It begins an identifier, as a letter and `_` do.
    Start,
    /// It goes on with one and begins none, as a digit does.
    Next,
    Neither,
}

/// What a word of the form of an identifier is.
#[derive(Clone, Copy)]
pub enum Word {
    /// A keyword that this compiler reads.
    Used,
    /// A keyword of D that this compiler leaves out, or another word that begins with `__`.
    Outside,
    /// A name.
    Plain,
}

/// The keywords that this compiler reads.
pub const USED: [&[u8]; 50] = [
    b"alias",
    b"assert",
    b"auto",
    b"bool",
    b"break",
    b"byte",
    b"case",
    b"cast",
    b"char",
    b"const",
    b"continue",
    b"default",
    b"do",
    b"else",
    b"enum",
    b"false",
    b"for",
    b"foreach",
    b"if",
    b"immutable",
    b"import",
    b"int",
    b"is",
    b"long",
    b"mixin",
    b"module",
    b"new",
    b"nothrow",
    b"null",
    b"private",
    b"public",
    b"pure",
    b"ref",
    b"return",
    b"short",
    b"static",
    b"struct",
    b"switch",
    b"template",
    b"this",
    b"true",
    b"typeof",
    b"ubyte",
    b"uint",
    b"ulong",
    b"ushort",
    b"version",
    b"void",
    b"while",
    b"__traits",
];

/// The keywords of D that this compiler leaves out.
pub const OUTSIDE: [&[u8]; 44] = [
    b"abstract",
    b"align",
    b"asm",
    b"catch",
    b"cent",
    b"class",
    b"dchar",
    b"debug",
    b"delegate",
    b"delete",
    b"deprecated",
    b"double",
    b"export",
    b"extern",
    b"final",
    b"finally",
    b"float",
    b"foreach_reverse",
    b"function",
    b"goto",
    b"in",
    b"inout",
    b"interface",
    b"invariant",
    b"lazy",
    b"macro",
    b"out",
    b"override",
    b"package",
    b"pragma",
    b"protected",
    b"real",
    b"scope",
    b"shared",
    b"super",
    b"synchronized",
    b"throw",
    b"try",
    b"typeid",
    b"ucent",
    b"union",
    b"unittest",
    b"wchar",
    b"with",
];

/// The signs of D that this compiler leaves out.
pub const OUTSIDE_SIGNS: [&[u8]; 4] = [b"=>", b"^^", b"^^=", b"..."];

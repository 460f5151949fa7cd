// Comments (D specification, "Lexical", "Comments").
ghost use Rattle.std.specs.Prelude.{◌≡◌, true};
ghost use Rattle.dc_token.specs.Bytes as bytes;
ghost use Rattle.dc_token.specs.Comments as comments;
ghost use Rattle.dc_lexer.specs.Fronts as fronts;

use dc_token::byte;

/// The length of a comment `/+ .. +/` at the front, or 0.
pub(crate) fn nested(z: &[u8]) -> usize
    requires { bytes.begins 47 43 z.now ≡ true }
    ensures { fronts.Longest comments.IsNested z.now result }
{
    let mut at: usize = 2;
    let mut depth: usize = 1;
    while at < z.len() {
        let b = z[at];
        let next = byte(z, at + 1);
        if b == b'/' && next == b'+' {
            depth += 1;
            at += 2;
            continue;
        }
        if b == b'+' && next == b'/' {
            depth -= 1;
            at += 2;
            if depth == 0 {
                return at;
            }
            continue;
        }
        at += 1;
    }
    0
}

/// The length of a comment `/* .. */` at the front, or 0.
pub(crate) fn block(z: &[u8]) -> usize
    requires { bytes.begins 47 42 z.now ≡ true }
    ensures { fronts.Longest comments.IsBlock z.now result }
{
    let mut at: usize = 2;
    while at < z.len() {
        if z[at] == b'*' && byte(z, at + 1) == b'/' {
            return at + 2;
        }
        at += 1;
    }
    0
}

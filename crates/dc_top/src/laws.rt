// Laws of the definitions that the top call's contract cites.
ghost use Rattle.dc_top.specs.Front.{IsSettled, OneVerdict};
ghost use Rattle.dc_top.specs.Laws.{CountsAreDecimals};
ghost use Rattle.dc_top.specs.Spellings.{SpellsEach};
ghost use Rattle.dc_top.specs.Texts.{OneTextVerdict};

use crate::names::default_name;
use dc_lexer::{first_unreadable, is_name};

/// A file and its text have at most one program and at most one refusal, and never both. So what a run does, and what a
/// refusal says, is settled by the text alone.
pub fn texts_have_one_verdict()
    ensures { OneVerdict }
{}

/// The number behind `--ticks` is the one whose decimal stands there, without a needless 0, and it is at most 10^18.
pub fn counts_are_decimals()
    ensures { CountsAreDecimals }
{}

/// A file's text is at most one module, and meets at most one refusal by the rules of texts.
pub fn one_text_verdict()
    ensures { OneTextVerdict }
{}

/// Each file's text is a program or is refused. The call goes through the text to show it, and takes no memory.
pub fn each_text_is_settled(file: &[u8], text: &[u8])
    ensures { IsSettled file.now text.now }
{
    let _stop = first_unreadable(text);
    let _named = is_name(default_name(file));
}

/// No two tokens of a text begin at one offset, so the spelling at the offset of a token is that token's; and the text
/// goes on with it there.
pub fn tokens_are_spelled()
    ensures { SpellsEach }
{}

//! Laws of the definitions, each the contract of a function that answers nothing.

ghost use Rattle.st_query.specs.Laws.{OneSpelling, OneRefusal, NotBoth, HasReading, OneAnswer};

use crate::lexer::next_token;
use crate::limits::MAX_TEXT;

/// No text spells two queries, none has two refusals, and none has both.
pub fn one_reading()
    ensures spelled { OneSpelling }
    ensures refused { OneRefusal }
    ensures apart { NotBoth }
{}

/// Each text of bytes spells a query or is refused. It passes over the text's tokens, which shows
/// it, and takes no memory.
pub fn some_reading(text: &[u8])
    ensures { HasReading text.now }
{
    if text.len() > MAX_TEXT {
        return;
    }
    let mut at = 0;
    'tokens: while let Some(found) = next_token(text, at) {
        at = found.end;
    }
}

/// A list of records has one answer at most to a query at a `now`.
pub fn one_answer()
    ensures { OneAnswer }
{}

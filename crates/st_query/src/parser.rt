//! A text as the query that it spells, or its refusal.
ghost use Rattle.std.specs.Prelude.{◌≡◌, ◌≢◌, ◌<◌, length, Err, IfOk, IfErr};
ghost use Rattle.st_query.specs.Spelling.{Spells, Refuses};
ghost use Rattle.st_query.specs.Parser.{error_at};

use crate::automaton::{Kind, Phase, Want, refusal, step};
use crate::errors::QueryErr;
use crate::lexer::next_token;
use crate::limits::MAX_TEXT;
use crate::nodes::Query;
use sqlite_items::Items;
use std::alloc::Global;

/// The refusal of this kind, at this offset in bytes.
fn error_at(kind: Kind, place: usize) -> QueryErr
    ensures { result ≡ error_at kind place }
{
    match kind {
        Kind::Syntax => QueryErr::Syntax { place },
        Kind::Number => QueryErr::Number { place },
        Kind::Address => QueryErr::Address { place },
        Kind::Time => QueryErr::Time { place },
        Kind::Deep => QueryErr::Deep { place },
    }
}

/// The query that `text` spells, in time linear in its length.
///
/// `Long` comes if and only if the text has more than `MAX_TEXT` bytes, and has their number. Every
/// other refusal but `NoMemory` is that of the first token which no further tokens make a query, or
/// of the end of the text: docs/QUERY.md, "Refusals".
pub fn parse(alloc: Global, text: &[u8]) -> Result<Query, QueryErr>
    ensures spells { IfOk result (λ q. Spells text.now q) }
    ensures long { MAX_TEXT < length text.now
        → result ≡ Err (QueryErr.Long (length text.now)) }
    ensures refuses { IfErr result (λ e. e ≢ QueryErr.NoMemory → Refuses text.now e) }
{
    if text.len() > MAX_TEXT {
        return Err(QueryErr::Long { len: text.len() });
    }
    let mut stack = Items::new(alloc);
    let mut phase = Phase::Reading {
        want: Want::Item,
        half: None,
    };
    let mut at = 0;
    'tokens: while let Some(found) = next_token(text, at) {
        let kind = refusal(&phase, Some(found.token));
        match step(alloc, &mut stack, phase, found.token) {
            Ok(Some(next)) => phase = next,
            Ok(None) => return Err(error_at(kind, found.start)),
            Err(_) => return Err(QueryErr::NoMemory),
        }
        at = found.end;
    }
    let kind = refusal(&phase, None);
    match phase {
        Phase::Joined(node) => {
            if stack.is_empty() {
                let Ok(query) = Query::new(alloc, node) else {
                    return Err(QueryErr::NoMemory);
                };
                return Ok(query);
            }
            Err(error_at(kind, text.len()))
        }
        Phase::Reading {
            want: _want,
            half: _half,
        } => Err(error_at(kind, text.len())),
    }
}

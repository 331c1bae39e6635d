//! The queries that a drill asks.
ghost use Rattle.std.specs.Prelude.{◌≡◌, IfOk, IfErr};
ghost use Rattle.st_query.specs.PrintedForm.{printed};
ghost use Rattle.st_query.specs.Trees.{tree};
ghost use Rattle.st_drill.specs.Queries.{query_tree};

use st_base::NoMemory;
use st_query::{Query, QueryErr, parse};
use std::alloc::Global;

/// A query that a drill asks.
#[derive(Clone, Copy, Debug, PartialEq, Eq)]
pub enum DrillQuery {
    /// The packets with the port of DNS: of a drill's packets every tenth.
    Dns,
    /// The packets of TCP with an address in 10.0.0.0/25.
    NearTcp,
    /// The packets before 2001-09-09T01:48:20Z: of a drill's packets the first 10,000.
    Early,
    /// The packets of 2001-09-09T01:48:20Z or later: of a drill's packets all but the first 10,000.
    Late,
}

impl DrillQuery {
    /// The printed form of the query.
    ///
    /// Source: docs/FORMAT.md, "Drill".
    pub fn text(self) -> &'static str
        ensures { result.now ≡ printed (query_tree self) }
    {
        match self {
            DrillQuery::Dns => "port 53",
            DrillQuery::NearTcp => "ip proto 6 and net 10.0.0.0/25",
            DrillQuery::Early => "before 2001-09-09T01:48:20Z",
            DrillQuery::Late => "after 2001-09-09T01:48:20Z",
        }
    }

    // The query that the printed form spells. Parsing it fails only if memory runs out.
    fn parsed(self, alloc: Global) -> Result<Query, QueryErr>
        ensures tree { IfOk result (λ q. tree q ≡ query_tree self) }
        ensures memory { IfErr result (λ e. e ≡ QueryErr.NoMemory) }
    {
        parse(alloc, self.text().as_bytes())
    }

    /// The query that `text` spells. `NoMemory` comes only if memory runs out.
    ///
    /// Source: docs/FORMAT.md, "Drill".
    pub fn query(self, alloc: Global) -> Result<Query, NoMemory>
        ensures { IfOk result (λ q. tree q ≡ query_tree self) }
    {
        match self.parsed(alloc) {
            Ok(query) => Ok(query),
            Err(_) => Err(NoMemory),
        }
    }
}

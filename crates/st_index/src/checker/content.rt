//! What is wrong with what the rows of an index say, row by row.

ghost use Rattle.std.specs.Prelude.{◌≡◌, List, [], ◌∷◌, ◌++◌, option_map};
ghost use Rattle.st_base.specs.Damages.{damage_view};
ghost use Rattle.st_tblock.specs.Block.{RowView};
ghost use Rattle.st_index.specs.CheckRows.{content_wrong};
ghost use Rattle.st_index.specs.CheckContent.{Remembers};

use crate::checker::values::{is_summary, positions_damage, summary_damage};
use st_base::Damage;

/// What is wrong with the rows of an index that were read so far.
#[derive(Clone, Copy)]
pub struct Content {
    /// Whether the summary row was read.
    has_summary: bool,
    /// The first check of the summary row that fails: until it is read, that it is there.
    summary: Option<Damage>,
    /// The first check of the positions of the other rows that fails.
    values: Option<Damage>,
}

impl Content {
    /// Of no rows.
    pub fn none() -> Content
        ensures { Remembers result [] }
    {
        Content {
            has_summary: false,
            summary: Some(Damage::broken(0)),
            values: None,
        }
    }

    /// After the next row.
    pub fn after(self, key: &[u8], value: &[u8]) -> Content
        ensures { (rows : List RowView) → Remembers self rows
            → Remembers result (rows ++ (key.now, value.now) ∷ []) }
    {
        if is_summary(key) {
            if self.has_summary {
                return self;
            }
            return Content {
                has_summary: true,
                summary: summary_damage(value),
                values: self.values,
            };
        }
        if self.values.is_some() {
            return self;
        }
        Content {
            has_summary: self.has_summary,
            summary: self.summary,
            values: positions_damage(value),
        }
    }

    /// The first check that fails: of the summary row, then of the other rows' positions.
    pub fn damage(self) -> Option<Damage>
        ensures { (rows : List RowView) → Remembers self rows
            → option_map damage_view result ≡ content_wrong rows }
    {
        match self.summary {
            Some(damage) => Some(damage),
            None => self.values,
        }
    }
}

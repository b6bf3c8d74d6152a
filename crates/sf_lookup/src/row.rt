//! The row of a function that holds at an offset (SFrame Version 2, frame row entries).

ghost use Rattle.std.specs.Prelude.{◌≡◌, ◌+◌};
ghost use Rattle.sf_model.specs.Function.{RowsRise};
ghost use Rattle.sf_model.specs.Lookup.{row_at};
ghost use Rattle.sf_decode.specs.View.{rows_left};
ghost use Rattle.sf_lookup.specs.Steps.{rows_read};

use crate::steps::Steps;
use sf_decode::RowIter;
use sf_model::Row;
use std::sync::ledger::Ledger;

/// Finds the row with the greatest start that is not above the offset. The starts rise. Each row that is read is a step.
pub fn row_at<L: Ledger>(rows: RowIter<'_>, offset: u64, steps: &mut Steps<L>) -> Option<Row>
    requires { RowsRise (rows_left rows) }
    ensures row { result ≡ row_at offset (rows_left rows.entry) }
    ensures cost { steps.new ≡ steps.old + rows_read offset (rows_left rows.entry) }
{
    let mut found = None;
    for row in rows {
        steps.tick();
        if u64::from(row.start) > offset {
            return found;
        }
        found = Some(row);
    }
    found
}

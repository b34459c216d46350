//! Where the requests stand that fail.
ghost use Rattle.std.specs.Prelude.{◌≡◌, IfOk};
ghost use Rattle.node_machine.specs.Lists.{row_fails};
ghost use Rattle.pending_book.specs.Rows.{places_where};
ghost use Rattle.step_draft.specs.Failures.{cause_of};

use crate::draft::Draft;
use crate::timers::Cause;
use net_rows::Tables;
use std::alloc::AllocError;

impl Draft {
    /// The places of the requests that fail, in the order in which they came.
    pub(crate) fn failing_places(
        &self,
        tables: &Tables,
        cause: &Cause,
    ) -> Result<Vec<usize>, AllocError>
        ensures exact { IfOk result (λ places. places.items ≡ places_where (row_fails tables.now self.now.base.count (cause_of cause.now)) self.now.base.rows) }
    {
        match cause {
            Cause::LinkDown(link) => self.books.put_on(*link),
            Cause::Tick => self
                .books
                .over(tables.links(), tables.settings().host_ticks),
        }
    }
}

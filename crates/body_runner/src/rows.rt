//! Instructions in a row.

ghost use Rattle.std.specs.Prelude.{◌+◌, ◌<◌, ◌≤◌, ◌^◌, IfOk, length};
ghost use Rattle.body_runner.specs.Rows.{IsCodedIn, Rows};
ghost use Rattle.body_runner.specs.Sights.{IsThere};

use crate::body::{Home, Inner};
use crate::instructions::Step;
use papy_base::Made;

/// Where a row of instructions halts, and what the last of them did: it faulted, leads to a place that doesn't lie ahead, or
/// calls or returns. It is done where the code has no more.
#[derive(Clone, Copy)]
pub struct Row {
    pub place: usize,
    pub halt: Step,
}

impl Home<'_> {
    /// Runs instructions in a row, up to one after which more has to be done than going on ahead. Places only rise.
    ///
    /// # Errors
    ///
    /// `OutOfMemory` comes where there is no room.
    pub fn run_row(&self, inner: &mut Inner<'_>, from: usize) -> Made<Row>
        requires { from < length self.now.function.now.code.items }
        ensures ahead { IfOk result (λ row. from ≤ row.place) }
        ensures room { IfOk result (λ row. row.place + 1 < 2 ^ 64) }
        ensures means { IsThere self.now.instance inner.old.store.now.instances → IsCodedIn self.now → IfOk result (λ row. Rows self.now from row.place row.halt inner.old inner.new) }
    {
        let code = self.function.code.as_slice();
        let mut place = from;
        while place < code.len() {
            match self.step(inner, &code[place])? {
                Step::Done => place += 1,
                Step::Jump(landing) => {
                    if usize::from(landing) <= place {
                        return Ok(Row {
                            place,
                            halt: Step::Jump(landing),
                        });
                    }
                    place = usize::from(landing);
                }
                halt => return Ok(Row { place, halt }),
            }
        }
        Ok(Row {
            place,
            halt: Step::Done,
        })
    }
}

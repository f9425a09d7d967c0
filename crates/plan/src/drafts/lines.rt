// The line that a draft becomes.
ghost use Rattle.plan.specs.Lines.{Becomes};

use crate::drafts::{Draft, Line, Marked};
use std::marker::PhantomData;

/// The line with the draft's plan and marks. Memory has to be cleared for it: `line::open_line`
/// does.
impl From<Draft> for Line {
    ghost from_gives = { Becomes };

    fn from(draft: Draft) -> Line {
        let Marked { plan, marks, .. } = draft;
        Marked {
            plan,
            marks,
            state: PhantomData,
        }
    }
}

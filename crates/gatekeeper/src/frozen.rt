// The call that freezes files, on tables in which nothing dangles.
ghost use Rattle.model.specs.Calls.{freeze};
ghost use Rattle.answers.specs.Telling.{told};
ghost use Rattle.model.specs.Invariant.{Wf};
ghost use Rattle.gatekeeper.specs.View.{slots};
ghost use Rattle.gatekeeper.specs.Acting.{Acts};

use crate::{Monitor, Reply};
use answers::Granted;

impl Monitor {
    // Call 16: the freeze is this number, in place of the one before it.
    pub(crate) fn freeze(mut self, level: u64) -> Reply
        ensures { Wf (slots self) → Acts self (freeze level) (told result.answer) result.monitor }
    {
        if let Err(refusal) = refusals::of_freeze(level) {
            return self.refuse(refusal);
        }
        self.freeze = (level % 256) as u8;
        Reply {
            monitor: self,
            answer: Ok(Granted::Allowed(self.freeze)),
        }
    }
}

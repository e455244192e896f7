// The call that connects two subjects, on tables in which nothing dangles.
ghost use Rattle.answers.specs.Telling.{told};
ghost use Rattle.model.specs.Calls.{connect};
ghost use Rattle.model.specs.Invariant.{Wf};
ghost use Rattle.gatekeeper.specs.View.{slots};
ghost use Rattle.gatekeeper.specs.Acting.{Acts};
ghost use Rattle.refusals.specs.Refusing.{Room};

use crate::{Monitor, Reply};
use answers::Granted;
use tables::{Object, PIPE, looks};

impl Monitor {
    // Call 17, whose t is u here: two new empty pipes, a at s's label and b at u's; s and u each read the other's at place p and write their own at q.
    pub(crate) fn connect(mut self, s: u64, u: u64, a: u64, b: u64, p: u64, q: u64) -> Reply
        ensures { Wf (slots self) → Room (slots self) (connect s u a b p q) → Acts self (connect s u a b p q) (told result.answer) result.monitor }
    {
        let x = self.subject(s);
        let z = self.subject(u);
        let y = self.object(a);
        let v = self.object(b);
        let h = self.handle(s, p);
        let k = self.handle(s, q);
        let i = self.handle(u, p);
        let j = self.handle(u, q);
        if let Err(refusal) = refusals::of_connect(s, u, a, b, p, q, x, z, y, v, h, k, i, j) {
            return self.refuse(refusal);
        }
        let pipe_a = Object {
            kind: PIPE,
            level: x.level,
            shops: x.shops,
        };
        let pipe_b = Object {
            kind: PIPE,
            level: z.level,
            shops: z.shops,
        };
        let one = looks::with_object(self.objects, a, pipe_a);
        let both = looks::with_object(one, b, pipe_b);
        let joined = handles::with_ends(self.handles, s, p, q, b, a);
        let next = handles::with_ends(joined, u, p, q, a, b);
        let needs = flows::figures(self.subjects, self.groups, both, next);
        let short = flows::is_short(self.subjects, both, needs);
        if let Err(refusal) = refusals::last(short, false, false) {
            return self.refuse(refusal);
        }
        self.objects = both;
        self.handles = next;
        self.needs = needs;
        Reply {
            monitor: self,
            answer: Ok(Granted::Allowed(x.level)),
        }
    }
}

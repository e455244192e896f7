// Calls by which handles and things go, on tables in which nothing dangles.
ghost use Rattle.model.specs.Calls.{close, exit, retire};
ghost use Rattle.answers.specs.Telling.{told};
ghost use Rattle.model.specs.Invariant.{Wf};
ghost use Rattle.gatekeeper.specs.View.{slots};
ghost use Rattle.gatekeeper.specs.Acting.{Acts};

use crate::{Monitor, Reply};
use answers::Granted;
use tables::{Handle, OBJECT_NUMBERS, Object, Subject, looks};

impl Monitor {
    // Call 11: the place is empty; a pipe ends with its last handle.
    pub(crate) fn close(mut self, s: u64, p: u64) -> Reply
        ensures { Wf (slots self) → Acts self (close s p) (told result.answer) result.monitor }
    {
        let x = self.subject(s);
        let h = self.handle(s, p);
        if let Err(refusal) = refusals::of_held(x, h) {
            return self.refuse(refusal);
        }
        let handles = looks::with_handle(self.handles, s, p, Handle::default());
        let number = h.object as u64;
        let y = self.object(number);
        let left = handles::outlived(handles, y, h.object);
        let rest = looks::with_object(self.objects, number, left);
        let needs = keeping::closed(
            self.needs,
            self.subjects,
            self.groups,
            self.objects,
            handles,
            s,
            h,
        );
        self.objects = rest;
        self.handles = handles;
        self.needs = needs;
        Reply {
            monitor: self,
            answer: Ok(Granted::Allowed(x.level)),
        }
    }

    // Call 12: all handles closed, number free; pipes end with their last handles. Its mates stay.
    pub(crate) fn exit(mut self, s: u64) -> Reply
        ensures { Wf (slots self) → Acts self (exit s) (told result.answer) result.monitor }
    {
        let x = self.subject(s);
        if let Err(refusal) = refusals::of_exit(x) {
            return self.refuse(refusal);
        }
        let after = handles::vacated(self.handles, s);
        let left = handles::reaped(self.objects, self.handles, after);
        let rest = looks::with_subject(self.subjects, s, Subject::default());
        let needs = keeping::vacated(self.needs, rest, self.groups, self.objects, after, s);
        self.subjects = rest;
        self.objects = left;
        self.handles = after;
        self.needs = needs;
        Reply {
            monitor: self,
            answer: Ok(Granted::Allowed(x.level)),
        }
    }

    // Call 13: file gone, number free.
    pub(crate) fn retire(mut self, o: u64) -> Reply
        ensures { Wf (slots self) → Acts self (retire o) (told result.answer) result.monitor }
    {
        let y = self.object(o);
        if let Err(refusal) = refusals::of_retire(y) {
            return self.refuse(refusal);
        }
        let busy = handles::is_open(self.handles, (o % OBJECT_NUMBERS) as u8);
        if let Err(refusal) = refusals::last(false, busy, false) {
            return self.refuse(refusal);
        }
        let rest = looks::with_object(self.objects, o, Object::default());
        self.objects = rest;
        Reply {
            monitor: self,
            answer: Ok(Granted::Allowed(y.level)),
        }
    }
}

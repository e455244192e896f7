// Calls that make things, and that place and mark handles, on tables in which nothing dangles.
ghost use Rattle.model.specs.Label.{label};
ghost use Rattle.model.specs.Calls.{admit, register, create, make_pipe, opens, fork, thread, mark};
ghost use Rattle.answers.specs.Telling.{told};
ghost use Rattle.model.specs.Invariant.{Wf};
ghost use Rattle.gatekeeper.specs.View.{slots};
ghost use Rattle.gatekeeper.specs.Acting.{Firm, Acts, Keeps};
ghost use Rattle.refusals.specs.Refusing.{Room, direction};

use crate::{Monitor, Reply, SURE};
use answers::Granted;
use keeping::Thing;
use tables::{FILE, Handle, Object, PIPE, Subject, looks};

impl Monitor {
    // Call 1: a new subject from outside, in a group of its own, with no handles, and so with no need.
    pub(crate) fn admit(mut self, s: u64, level: u64, shops: u64) -> Reply
        ensures { Wf (slots self) → Acts self (admit s (label level shops)) (told result.answer) result.monitor }
    {
        let x = self.subject(s);
        if let Err(refusal) = refusals::of_admit(s, level, shops, x) {
            return self.refuse(refusal);
        }
        let new = Subject {
            live: 1,
            level: (level % 256) as u8,
            shops: (shops % 256) as u8,
        };
        let after = looks::with_subject(self.subjects, s, new);
        let own = groups::fresh(self.subjects, self.groups);
        let alone = groups::with(self.groups, s, own);
        let needs = keeping::with_need(self.needs, Thing::Subject(s), 0);
        self.subjects = after;
        self.groups = alone;
        self.needs = needs;
        Reply {
            monitor: self,
            answer: Ok(Granted::Allowed(new.level)),
        }
    }

    // Call 2: a new file from outside, which needs its label.
    pub(crate) fn register(mut self, o: u64, level: u64, shops: u64) -> Reply
        ensures { Wf (slots self) → Room (slots self) (register o (label level shops)) →
            Acts self (register o (label level shops)) (told result.answer) result.monitor }
    {
        let y = self.object(o);
        if let Err(refusal) = refusals::of_register(o, level, shops, y) {
            return self.refuse(refusal);
        }
        let new = Object {
            kind: FILE,
            level: (level % 256) as u8,
            shops: (shops % 256) as u8,
        };
        let after = looks::with_object(self.objects, o, new);
        let needs = keeping::with_need(self.needs, Thing::Object(o), looks::object_label(new));
        self.objects = after;
        self.needs = needs;
        Reply {
            monitor: self,
            answer: Ok(Granted::Allowed(new.level)),
        }
    }

    // Call 3: a new empty file at s's label, no handle.
    pub(crate) fn create(mut self, s: u64, o: u64) -> Reply
        ensures { Wf (slots self) → Room (slots self) (create s o) → Acts self (create s o) (told result.answer) result.monitor }
    {
        let x = self.subject(s);
        let y = self.object(o);
        if let Err(refusal) = refusals::of_create(o, x, y) {
            return self.refuse(refusal);
        }
        let new = Object {
            kind: FILE,
            level: x.level,
            shops: x.shops,
        };
        let after = looks::with_object(self.objects, o, new);
        let needs = keeping::with_need(self.needs, Thing::Object(o), looks::subject_label(x));
        self.objects = after;
        self.needs = needs;
        Reply {
            monitor: self,
            answer: Ok(Granted::Allowed(x.level)),
        }
    }

    // Call 4: a new empty pipe at s's label; place r reads, w writes. It needs what s needs.
    pub(crate) fn pipe(mut self, s: u64, o: u64, r: u64, w: u64) -> Reply
        ensures { Wf (slots self) → Room (slots self) (make_pipe s o r w) → Acts self (make_pipe s o r w) (told result.answer) result.monitor }
    {
        let x = self.subject(s);
        let y = self.object(o);
        let h = self.handle(s, r);
        let k = self.handle(s, w);
        if let Err(refusal) = refusals::of_pipe(o, r, w, x, y, h, k) {
            return self.refuse(refusal);
        }
        let new = Object {
            kind: PIPE,
            level: x.level,
            shops: x.shops,
        };
        let after = looks::with_object(self.objects, o, new);
        let joined = handles::with_ends(self.handles, s, r, w, o, o);
        let need = keeping::need(self.needs, Thing::Subject(s));
        let needs = keeping::with_need(self.needs, Thing::Object(o), need);
        self.objects = after;
        self.handles = joined;
        self.needs = needs;
        Reply {
            monitor: self,
            answer: Ok(Granted::Allowed(x.level)),
        }
    }

    // Calls 5 and 6: a reading or writing handle; no label falls.
    pub(crate) fn open(mut self, reads: bool, s: u64, o: u64, p: u64) -> Reply
        ensures acts { Firm self → Acts self (opens (direction reads) s o p) (told result.answer) result.monitor }
        ensures keeps { Wf (slots self) → Keeps self (opens (direction reads) s o p) result.monitor }
    {
        let x = self.subject(s);
        let y = self.object(o);
        let h = self.handle(s, p);
        if let Err(refusal) = refusals::of_open(p, x, y, h) {
            return self.refuse(refusal);
        }
        let put = looks::joining(crate::way_of(reads), o);
        let next = looks::with_handle(self.handles, s, p, put);
        let sure = self.sure == SURE;
        let w = keeping::opened(
            sure,
            self.needs,
            self.subjects,
            self.groups,
            self.objects,
            next,
            s,
            put,
        );
        let frozen = refusals::is_frozen(self.freeze, reads, y);
        if let Err(refusal) = refusals::last(w.short, false, frozen) {
            return self.refuse(refusal);
        }
        let needs = w.needs;
        self.handles = next;
        self.needs = needs;
        Reply {
            monitor: self,
            answer: Ok(Granted::Allowed(y.level)),
        }
    }

    // Call 9: new subject c, in a group of its own, with s's label and the same handles at the same places. It needs what s needs by these handles.
    pub(crate) fn fork(mut self, s: u64, c: u64) -> Reply
        ensures { Wf (slots self) → Acts self (fork s c) (told result.answer) result.monitor }
    {
        let x = self.subject(s);
        let z = self.subject(c);
        if let Err(refusal) = refusals::of_fork(c, x, z) {
            return self.refuse(refusal);
        }
        let new = Subject {
            live: 1,
            level: x.level,
            shops: x.shops,
        };
        let after = looks::with_subject(self.subjects, c, new);
        let all = handles::forked(self.handles, s, c);
        let own = groups::fresh(self.subjects, self.groups);
        let alone = groups::with(self.groups, c, own);
        let needed = keeping::own(self.needs, self.handles, s);
        let needs = keeping::with_need(self.needs, Thing::Subject(c), needed);
        self.subjects = after;
        self.handles = all;
        self.groups = alone;
        self.needs = needs;
        Reply {
            monitor: self,
            answer: Ok(Granted::Allowed(x.level)),
        }
    }

    // Call 18: new subject c, with no handles, in the group of s. It has the group's label, and needs what s needs.
    pub(crate) fn thread(mut self, s: u64, c: u64) -> Reply
        ensures { Wf (slots self) → Acts self (thread s c) (told result.answer) result.monitor }
    {
        let x = self.subject(s);
        let z = self.subject(c);
        if let Err(refusal) = refusals::of_fork(c, x, z) {
            return self.refuse(refusal);
        }
        let new = Subject {
            live: 1,
            level: x.level,
            shops: x.shops,
        };
        let after = looks::with_subject(self.subjects, c, new);
        let joined = groups::with(self.groups, c, groups::of(self.groups, s));
        let shared = keeping::need(self.needs, Thing::Subject(s));
        let needs = keeping::with_need(self.needs, Thing::Subject(c), shared);
        self.subjects = after;
        self.groups = joined;
        self.needs = needs;
        Reply {
            monitor: self,
            answer: Ok(Granted::Allowed(x.level)),
        }
    }

    // Call 15: the handle at place p of s is marked.
    pub(crate) fn mark(mut self, s: u64, p: u64) -> Reply
        ensures { Wf (slots self) → Acts self (mark s p) (told result.answer) result.monitor }
    {
        let x = self.subject(s);
        let h = self.handle(s, p);
        if let Err(refusal) = refusals::of_held(x, h) {
            return self.refuse(refusal);
        }
        let all = looks::with_handle(self.handles, s, p, Handle { mark: 1, ..h });
        self.handles = all;
        Reply {
            monitor: self,
            answer: Ok(Granted::Allowed(x.level)),
        }
    }
}

// Calls that move data, a map among them, on tables in which nothing dangles.
ghost use Rattle.std.specs.Prelude.{◌≡◌, not};
ghost use Rattle.model.specs.Label.{leq};
ghost use Rattle.labels.specs.Codes.{coded};
ghost use Rattle.model.specs.Tables.{reading, writing};
ghost use Rattle.model.specs.Calls.{access, exec, maps};
ghost use Rattle.answers.specs.Telling.{told};
ghost use Rattle.model.specs.Invariant.{Wf};
ghost use Rattle.gatekeeper.specs.View.{slots};
ghost use Rattle.gatekeeper.specs.Acting.{Firm, Acts, Keeps};

use crate::{Monitor, Reply, SURE};
use keeping::Thing;
use tables::{MAPS, READS, looks};

// Label a is not at least label b.
fn is_less(a: u16, b: u16) -> bool
    ensures { result ≡ not (leq (coded b) (coded a)) }
{
    !labels::is_at_most(b, a)
}

impl Monitor {
    // Call 7: s and its mates fall to the object's label: the smaller level and the common set.
    pub(crate) fn read(mut self, s: u64, p: u64) -> Reply
        ensures { Wf (slots self) → Acts self (access reading s p) (told result.answer) result.monitor }
    {
        let x = self.subject(s);
        let h = self.handle(s, p);
        if let Err(refusal) = refusals::of_read(x, h) {
            return self.refuse(refusal);
        }
        let y = self.object(h.object as u64);
        let put = looks::fallen(x, y.label());
        let t = mappings::taken(self.subjects, self.groups, s, y.label());
        let after = t.subjects;
        self.subjects = after;
        let lost = labels::lost(x.shops, put.shops);
        Reply {
            monitor: self,
            answer: answers::not_refused(t.lower, put.level, lost),
        }
    }

    // Call 8: a pipe falls to s's label; a file keeps its own, and each subject that has it mapped reads it, and with it its mates.
    pub(crate) fn write(mut self, s: u64, p: u64) -> Reply
        ensures { Wf (slots self) → Acts self (access writing s p) (told result.answer) result.monitor }
    {
        let x = self.subject(s);
        let h = self.handle(s, p);
        if let Err(refusal) = refusals::of_write(x, h) {
            return self.refuse(refusal);
        }
        let before = self.subjects;
        let number = h.object as u64;
        let y = self.object(number);
        let put = looks::sunken(y, x.label());
        let readers = mappings::reread(before, self.groups, self.handles, y, h.object);
        let sank = is_less(looks::object_label(put), looks::object_label(y));
        let lost = labels::lost(y.shops, put.shops);
        let lower = mappings::is_lower(before, readers);
        let fell = sank || lower;
        let rest = looks::with_object(self.objects, number, put);
        self.subjects = readers;
        self.objects = rest;
        Reply {
            monitor: self,
            answer: answers::not_refused(fell, put.level, lost),
        }
    }

    // Call 10: file o is run; s falls to o's label; its mates are ended, its marked handles and its mappings are closed, and pipes end with their last
    // handles.
    pub(crate) fn exec(mut self, s: u64, o: u64) -> Reply
        ensures { Wf (slots self) → Acts self (exec s o) (told result.answer) result.monitor }
    {
        let x = self.subject(s);
        let y = self.object(o);
        if let Err(refusal) = refusals::of_exec(x, y) {
            return self.refuse(refusal);
        }
        let before = self.handles;
        let a = groups::alone(self.subjects, self.groups, before, s);
        let own = a.subjects;
        let after = a.handles;
        let needs = flows::figures(own, self.groups, self.objects, after);
        let need = keeping::need(needs, Thing::Subject(s));
        let short = is_less(looks::object_label(y), need);
        if let Err(refusal) = refusals::last(short, false, false) {
            return self.refuse(refusal);
        }
        let put = looks::fallen(x, y.label());
        let ran = looks::with_subject(own, s, put);
        let left = handles::reaped(self.objects, before, after);
        self.subjects = ran;
        self.objects = left;
        self.handles = after;
        self.needs = needs;
        let sank = is_less(looks::subject_label(put), looks::subject_label(x));
        let lost = labels::lost(x.shops, put.shops);
        Reply {
            monitor: self,
            answer: answers::not_refused(sank, put.level, lost),
        }
    }

    // Call 14: a mapping, which is tested as an open for reading is, and a read: s and its mates fall to o's label.
    pub(crate) fn map(mut self, s: u64, o: u64, p: u64) -> Reply
        ensures acts { Firm self → Acts self (maps s o p) (told result.answer) result.monitor }
        ensures keeps { Wf (slots self) → Keeps self (maps s o p) result.monitor }
    {
        let x = self.subject(s);
        let y = self.object(o);
        let h = self.handle(s, p);
        if let Err(refusal) = refusals::of_map(p, x, y, h) {
            return self.refuse(refusal);
        }
        let opened = looks::joining(READS, o);
        let next = looks::with_handle(self.handles, s, p, opened);
        let sure = self.sure == SURE;
        let w = keeping::opened(
            sure,
            self.needs,
            self.subjects,
            self.groups,
            self.objects,
            next,
            s,
            opened,
        );
        if let Err(refusal) = refusals::last(w.short, false, false) {
            return self.refuse(refusal);
        }
        let needs = w.needs;
        let put = looks::fallen(x, y.label());
        let fell = mappings::taken(self.subjects, self.groups, s, y.label());
        let after = fell.subjects;
        let all = looks::with_handle(self.handles, s, p, looks::joining(MAPS, o));
        self.subjects = after;
        self.handles = all;
        self.needs = needs;
        let lost = labels::lost(x.shops, put.shops);
        Reply {
            monitor: self,
            answer: answers::not_refused(fell.lower, put.level, lost),
        }
    }
}

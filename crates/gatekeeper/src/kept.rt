// The needs that are kept beside the tables: what is told of them, and how those of any monitor value are put right.
ghost use Rattle.std.specs.Prelude.{◌≡◌, cond};
ghost use Rattle.labels.specs.Codes.{coded};
ghost use Rattle.model.specs.Flow.{subject, object};
ghost use Rattle.model.specs.Tables.{clean, needs};
ghost use Rattle.gatekeeper.specs.View.{view, Right, kept_need, KeptAt, Righted, Assured};

use crate::{Monitor, SURE};
use keeping::Thing;
use tables::{OBJECT_NUMBERS, slots};

// What a monitor may say of itself, whose needs are right and in which nothing dangles: that it is sure, unless some label is below its need; a byte of the C struct.
fn earned(short: bool) -> u8
    ensures { result ≡ cond short 0 1 }
{
    if short { 0 } else { SURE }
}

impl Monitor {
    // The kept need of subject s, and of object o; 0 where it is not live. On a right monitor it is the need, and so that of whatever is not live.
    pub fn need_of_subject(self, s: u64) -> u16
        ensures kept { result ≡ kept_need self s }
        ensures right { Right self → coded result ≡ needs (clean (view self)) (subject s) }
    {
        let x = self.subject(s);
        if x.live == 0 {
            return 0;
        }
        keeping::need(self.needs, Thing::Subject(s))
    }

    pub fn need_of_object(self, o: u64) -> u16
        ensures kept { KeptAt self o result }
        ensures right { Right self → coded result ≡ needs (clean (view self)) (object o) }
    {
        let single = slots::single(self.objects, self.numbers);
        let i = slots::slot_of(single, self.numbers, o);
        if OBJECT_NUMBERS <= i {
            return 0;
        }
        keeping::need(self.needs, Thing::Object(i))
    }

    // This monitor with its needs worked out anew, whatever they were. All else stays as it is, the free part too.
    pub fn righted(mut self) -> Monitor
        ensures { Righted self result }
    {
        let single = slots::single(self.objects, self.numbers);
        let counted = handles::cleaned(self.subjects, single, self.handles);
        let needs = flows::figures(self.subjects, self.groups, single, counted);
        self.needs = needs;
        self
    }

    // This monitor with what dangles emptied and its needs worked out anew, whatever they were; and SURE where that makes it one which calls may rely on. Then opens and closes
    // go by the needs that it keeps. Where some label is below its need they do not, and it says nothing of itself.
    pub fn assured(mut self) -> Monitor
        ensures { Assured self result }
    {
        let single = slots::single(self.objects, self.numbers);
        let emptied = handles::cleaned(self.subjects, single, self.handles);
        let needs = flows::figures(self.subjects, self.groups, single, emptied);
        let short = flows::is_short(self.subjects, single, needs);
        self.objects = single;
        self.handles = emptied;
        self.needs = needs;
        self.sure = earned(short);
        self
    }
}

// The direct call, for every monitor value: it cleans the tables where they are not sure, makes the call, and hands the very same monitor back where it is
// refused.
ghost use Rattle.std.specs.Prelude.{◌≡◌};
ghost use Rattle.model.specs.Tables.{clean};
ghost use Rattle.model.specs.Calls.{decode};
ghost use Rattle.model.specs.Invariant.{Wf};
ghost use Rattle.model.specs.Promise.{Meets};
ghost use Rattle.answers.specs.Telling.{told};
ghost use Rattle.gatekeeper.specs.View.{slots, once, Tidy, monitors, direct_of};
ghost use Rattle.gatekeeper.specs.Acting.{Firm, Acts, Keeps};
ghost use Rattle.tables.specs.Slots.{single};
ghost use Rattle.refusals.specs.Refusing.{Room};

use crate::{Monitor, Reply, SURE, seats};
use answers::Refusal;
use calls::{Call, Numbers};
use tables::slots;

impl Monitor {
    // This monitor where it is sure; else no dangling handle remains.
    fn readied(mut self) -> Monitor
        ensures tables { Tidy self → slots result ≡ clean (slots (once self)) }
        ensures needs { result.needs ≡ self.needs }
        ensures sure { result.sure ≡ self.sure }
        ensures numbers { result.numbers ≡ self.numbers }
        ensures objects { Tidy self → result.objects ≡ single self.objects self.numbers }
    {
        if self.sure == SURE {
            return self;
        }
        let single = slots::single(self.objects, self.numbers);
        let kept = handles::cleaned(self.subjects, single, self.handles);
        self.objects = single;
        self.handles = kept;
        self
    }

    // The numbers that the code does not use are ignored. Nothing dangles in the tables. Codes stay numbers: records and C programs have them (RULES C106).
    fn dispatch(self, call: Call) -> Reply
        ensures acts { Firm self → Room (slots self) (decode (direct_of call)) → Acts self (decode (direct_of call)) (told result.answer) result.monitor }
        ensures keeps { Wf (slots self) → Room (slots self) (decode (direct_of call)) → Keeps self (decode (direct_of call)) result.monitor }
    {
        let Numbers { a, b, c, d, e, f } = call.numbers;
        match call.code {
            1 => self.admit(a, b, c),
            2 => self.register(a, b, c),
            3 => self.create(a, b),
            4 => self.pipe(a, b, c, d),
            5 => self.open(true, a, b, c),
            6 => self.open(false, a, b, c),
            7 => self.read(a, b),
            8 => self.write(a, b),
            9 => self.fork(a, b),
            10 => self.exec(a, b),
            11 => self.close(a, b),
            12 => self.exit(a),
            13 => self.retire(a),
            14 => self.map(a, b, c),
            15 => self.mark(a, b),
            16 => self.freeze(a),
            17 => self.connect(a, b, c, d, e, f),
            18 => self.thread(a, b),
            _ => self.refuse(Refusal::UnknownCode),
        }
    }

    // A code and six numbers; those that the code does not use are ignored. A refused call hands the same struct back, free part included;
    // any other hands back the rules' next tables, and its free part is any (model, `Promise`). The first is promised of every monitor; the answer and the tables of
    // honest ones, that is, of those that do not say that they are sure, and of those that say so and of which it is so; and that kept needs stay right and `sure`
    // what it is also of any other in which nothing dangles and no two slots have one number.
    pub fn call(self, call: Call) -> Reply
        ensures { Meets monitors self (decode (direct_of call)) (told result.answer) result.monitor }
    {
        let mut t = self.readied();
        let s = seats::located(t.objects, t.numbers, call);
        let numbers = s.numbers;
        t.numbers = numbers;
        let r = t.dispatch(s.call);
        self.settle(r)
    }
}

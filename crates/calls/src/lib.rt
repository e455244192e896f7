// A direct call: a code and six numbers (RULES C106, C108), as it stands in a record and as the monitor takes it.
#![tactic(auto)]

// The numbers of a call, 0 for those that its code does not use.
#[derive(Clone, Copy, Debug, Default, PartialEq, Eq)]
pub struct Numbers {
    pub a: u64,
    pub b: u64,
    pub c: u64,
    pub d: u64,
    pub e: u64,
    pub f: u64,
}

#[derive(Clone, Copy, Debug, Default, PartialEq, Eq)]
pub struct Call {
    pub code: u64,
    pub numbers: Numbers,
}

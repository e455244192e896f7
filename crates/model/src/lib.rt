// The rules of the gatekeeper as definitions and theorems: this crate has no code. See specs/.
#![tactic(auto)]

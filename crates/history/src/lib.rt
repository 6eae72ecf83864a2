// Histories: the eight calls of a store with their arguments and answers, one after another, and
// the law that holds of every history.
//
// This crate has the replies as types, the rule of each call, and the law, as definitions; and the
// proof that the law holds after every run of calls that keep their rules.
// It has no code of a call: that is crate `store`. The rules stand in docs/STORE.md, the law in
// docs/LAW.md.
#![tactic(auto)]

mod replies;

pub use replies::{Figures, Link, Reading, Reply};

// Requests: any call of a store as a value, and the call that makes it.
//
// `perform` makes any call but add, over a list that is only read; `perform_growing` makes any of the
// eight, over a list that grows. Both say by the calls' own rules what is answered and left, and both
// carry the law: whatever history of calls led from a new store to this one, refused ones included,
// the law holds after this call too. The rules stand in docs/STORE.md, the law in docs/LAW.md.
#![tactic(auto)]

mod meanings;
mod performing;
mod request;

pub use meanings::meaning;
pub use performing::{perform, perform_growing};
pub use request::{GrowingRequest, Request};

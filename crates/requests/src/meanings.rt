// What a request means where the list grows.
ghost use Rattle.requests.specs.declared.request.GrowingRequest.TheVariants.{Other};
ghost use Rattle.refusal.specs.Meanings.{Gives};

use super::request::{GrowingRequest, Request};

// A request becomes one of a growing list as it is, by `From`.
pub fn meaning<'a, S: 'a, R: 'a>()
    ensures { Gives ⟦<GrowingRequest<'a, S, R> as From<Request<'a, S, R>>>⟧.from_gives Other }
{}

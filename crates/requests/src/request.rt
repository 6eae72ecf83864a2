// The calls as values, each with its arguments.
ghost use Rattle.std.specs.Prelude.{◌≡◌};

use script::WordTriple;

// Any of the calls but add: these need a list only to read it.
#[derive(Drop)]
pub enum Request<'a, S, R> {
    Tie { words: WordTriple<'a, S>, record: R },
    Delete { words: WordTriple<'a, S> },
    Find { words: WordTriple<'a, S> },
    Read { link: u32 },
    Change { link: u32, record: R },
    List { x: &'a [S], relation: u8 },
    Figures,
}

// Any of the eight calls: add needs a list that grows, the others do not.
#[derive(Drop)]
pub enum GrowingRequest<'a, S, R> {
    Add { words: WordTriple<'a, S>, record: R },
    Other(Request<'a, S, R>),
}

impl<'a, S, R> From<Request<'a, S, R>> for GrowingRequest<'a, S, R> {
    ghost use Rattle.requests.specs.declared.request.GrowingRequest.{GrowingRequest};

    ghost from_gives = { λ request growing. growing ≡ GrowingRequest.Other request };

    fn from(request: Request<'a, S, R>) -> Self {
        GrowingRequest::Other(request)
    }
}

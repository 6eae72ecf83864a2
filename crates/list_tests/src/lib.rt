// Tests of scripts, refusals and word lists on examples, on bad input and at their limits; and of both lists by one
// text.
#![tactic(auto)]

#[cfg(test)]
mod both;
#[cfg(test)]
mod lists;
#[cfg(test)]
mod overlays;
#[cfg(test)]
mod scripts;
#[cfg(test)]
mod tries;

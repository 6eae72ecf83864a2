// Tests of the double array, of the numbers below a beginning and of the link table: small examples, and
// arrays at their limits.
#![tactic(auto)]

#[cfg(test)]
mod arrays;
#[cfg(test)]
mod below;
#[cfg(test)]
mod tables;

// Tests of the store's calls: refusals in their order, and stores and records at their limits.
#![tactic(auto)]

#[cfg(test)]
mod limits;
#[cfg(test)]
mod making;
#[cfg(test)]
mod records;
#[cfg(test)]
mod refusals;
#[cfg(test)]
mod scripts;

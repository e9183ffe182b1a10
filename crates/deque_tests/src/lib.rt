// Tests of a ring at the limits of its capacity, of calls that are lent too few slots, and of worked examples.
#![tactic(auto)]

#[cfg(test)]
mod rows;
#[cfg(test)]
mod tests;

// Tests of drains and of whole histories, with bins and predicates of several kinds.
#![tactic(auto)]

#[cfg(test)]
mod drains;
#[cfg(test)]
mod histories;

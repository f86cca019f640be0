//! Tests of what keeps an operation from being fit to run, of checked passes, and of calls on trees that are ill defined. It
//! has no function of its own.
#![tactic(auto)]

#[cfg(test)]
mod by_definition;
#[cfg(test)]
mod driver;
#[cfg(test)]
mod expect;
#[cfg(test)]
mod ill_defined;
#[cfg(test)]
mod random;
#[cfg(test)]
mod running;
#[cfg(test)]
mod traps;
#[cfg(test)]
mod violations;

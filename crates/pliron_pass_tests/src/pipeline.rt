//! Tests of `pliron_pass_pipeline`: the three passes and a failing one of a caller under each combinator, in a
//! caller's enum that nests them several levels deep, by the call that promises what every nesting keeps;
//! what is cached, counted and answered then; runs and facts before and after; and a driver. Its one function
//! joins the ends of the promise at a root of `Bench`.
#[cfg(test)]
mod driver;
#[cfg(test)]
mod failing;
#[cfg(test)]
mod kept;
#[cfg(test)]
mod lines;
#[cfg(test)]
mod nest;
#[cfg(test)]
mod promise;
#[cfg(test)]
mod texts;

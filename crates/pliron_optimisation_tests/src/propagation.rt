//! Tests of constant propagation on texts.
#[cfg(test)]
mod cases;
#[cfg(test)]
mod counts;
#[cfg(test)]
mod entries;
#[cfg(test)]
mod marked;
#[cfg(test)]
mod random_cases;
#[cfg(test)]
mod texts;
#[cfg(test)]
mod tiny;

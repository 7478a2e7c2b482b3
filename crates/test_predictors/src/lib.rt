//! Tests of the linear predictors that are found for blocks of samples.
#![tactic(auto)]

#[cfg(test)]
mod finding;
#[cfg(test)]
mod pushing;

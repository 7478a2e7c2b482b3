//! Tests of what goes wrong: streams that come in pieces, that are cut off or changed, and devices that fail at each
//! call in turn. They stand apart from `test_library`, so that both are proved side by side.
#![tactic(auto)]

#[cfg(test)]
mod memory;
#[cfg(test)]
mod pieces;
#[cfg(test)]
mod predicted;
#[cfg(test)]
mod reads;
#[cfg(test)]
mod strange;
#[cfg(test)]
mod writes;

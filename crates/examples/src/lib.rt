// The worked examples: those about the definitions are proved here as one table, the others are run as tests.

#![tactic(auto)]

#[cfg(test)]
mod counts;
#[cfg(test)]
mod meters;
#[cfg(test)]
mod places;
pub mod table;

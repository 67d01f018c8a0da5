// A tree and a plain list side by side: the same changes are made to both, and they are compared after each one.

#![tactic(auto)]

#[cfg(test)]
mod dice;
#[cfg(test)]
mod loading;
#[cfg(test)]
mod plain;
#[cfg(test)]
mod replacing;

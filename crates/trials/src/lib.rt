// Trials of the layers from outside, in a crate of their own so that no layer is proved twice for its tests.
#![tactic(auto)]

#[cfg(test)]
mod calls;
#[cfg(test)]
mod devices;
#[cfg(test)]
mod files;
#[cfg(test)]
mod indexes;

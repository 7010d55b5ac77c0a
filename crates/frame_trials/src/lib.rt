// Trials of the frame memories: the static chain, the display and a plain model get the same calls.
#![tactic(auto)]

#[cfg(test)]
mod call;
#[cfg(test)]
mod counter;
#[cfg(test)]
mod edges;
#[cfg(test)]
mod limits;
#[cfg(test)]
mod model;
#[cfg(test)]
mod step;
#[cfg(test)]
mod tests;

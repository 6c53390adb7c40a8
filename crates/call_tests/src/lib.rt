// Tests of the calls and of replays.
#![tactic(auto)]

#[cfg(test)]
mod calls;
#[cfg(test)]
mod expects;
#[cfg(test)]
mod streams;
#[cfg(test)]
mod table;

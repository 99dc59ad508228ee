//! Tests of calls: what no clause says. That memory suffices, what real files hold, and each call once on a row that was
//! worked by hand. A module has the tests of the crate of its name. There is no code here.
#![tactic(auto)]

#[cfg(test)]
mod edits;
#[cfg(test)]
mod fold;
#[cfg(test)]
mod galleys;
#[cfg(test)]
mod greedy;
#[cfg(test)]
mod hlist;
#[cfg(test)]
mod marks;
#[cfg(test)]
mod outside;
#[cfg(test)]
mod plan;
#[cfg(test)]
mod points;
#[cfg(test)]
mod session;
#[cfg(test)]
mod variants;

//! Tests of the machine and of what it is made of: the quick answers for ints, bools, tuples, calls and walks are given
//! where there is one, and code run by hand on the machine over a base. They stand in a crate of their own, since a
//! crate's tests are proved together with the whole crate.
#![tactic(auto)]

#[cfg(test)]
mod calls;
#[cfg(test)]
mod machine;
#[cfg(test)]
mod operands;
#[cfg(test)]
mod samples;
#[cfg(test)]
mod slots;
#[cfg(test)]
mod walks;

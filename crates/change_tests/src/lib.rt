//! Examples of CHANGE and LEAVE.
#![tactic(auto)]

#[cfg(test)]
mod tests;

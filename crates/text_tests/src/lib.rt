// Tests of the readable form: what is refused, with its message and its place, and what is read and printed again.
#![tactic(auto)]

#[cfg(test)]
mod tests;

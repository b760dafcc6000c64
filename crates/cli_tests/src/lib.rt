// Tests of what the programs share: numbers in lines, and what is shown of an outcome.
#![tactic(auto)]

#[cfg(test)]
mod tests;

#![tactic(auto)]

#[cfg(test)]
mod cards;
#[cfg(test)]
mod tests;

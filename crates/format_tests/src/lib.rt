// Runs of the codec on bytes that came from sled 0.34.7's own text or from hand work.
#![tactic(auto)]

#[cfg(test)]
mod tests;

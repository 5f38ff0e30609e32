// The theorem over every list of calls, the tally that it counts by, and the figures: definitions and proofs alone.
#![tactic(auto)]

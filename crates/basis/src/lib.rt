// The 64-entry basis of the transform (the rules' 'Samples, places, colour') against the cosine: definitions and laws. The crate has
// no code of its own.
#![tactic(auto)]

// Definitions and laws only: specs/ says what a PAG file means, proofs/ what follows from it.
#![tactic(auto)]

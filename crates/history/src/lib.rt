// What the reader does over superframes one after the other. These are theorems on its promises, so they stand in specs/ and proofs/.
#![tactic(auto)]

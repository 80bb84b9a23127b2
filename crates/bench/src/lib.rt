// The bench cases of document 01 (docs/FORMAT.md) that are proved, and what else it prints. They speak of definitions alone, so they stand in specs/ and proofs/.
#![tactic(auto)]

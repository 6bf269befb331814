// Edits and rescues of plan files worked by hand (document 02, Points 4 and 14), as two lists under a claim each: what each edit
// makes of chains of several sorts, every refusal of its own and their order, what a rescue makes of each fault, and what a
// refusal leaves.
//
// Definitions (specs/) and theorems (proofs/Laws/) that are computed. There is no code.
#![tactic(auto)]

// Questions with their answers (document 02, Point 2), as one list under one claim: every verdict and word, every refusal and their
// order, and which slot it is that is asked for.
//
// Definitions (specs/) and a theorem (proofs/Laws/) that is computed. There is no code.
#![tactic(auto)]

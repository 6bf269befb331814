// How long an offer can be put off (document 02, Point 8): the bound as one claim about every list of calls, its proof, and runs in which
// a number is put off that long.
//
// Definitions (specs/) and theorems (proofs/Laws/) over those that the calls of regulator promise to answer by. There is no code.
#![tactic(auto)]

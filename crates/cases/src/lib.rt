// Cases with their outcomes, as one list under one claim: the starred ones of document 01, its run, its misreadings and a few
// sentences more; and a run that meets the premise of the share rule.
//
// Definitions (specs/) and theorems (proofs/Laws/) that are computed. There is no code.
#![tactic(auto)]

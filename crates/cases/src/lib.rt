// No code: document 01's starred cases in proofs/Starred.antt, its refusals' numbers in proofs/Numbers.antt, the reads of
// recoveries in proofs/ReadsMade.antt.
#![tactic(auto)]

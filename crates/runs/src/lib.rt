// Every run on tables: demand 3, runs by asking, and the history of held bytes.
//
// There is no code here: specs/ says which runs there are and what holds after them, over the definitions that the
// functions of cache are equal to, and proofs/ proves it.
#![tactic(auto)]

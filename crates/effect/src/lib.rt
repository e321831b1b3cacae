// What a further statement would do. There is no code here: specs/ has the definitions, proofs/ their theorems.
#![tactic(auto)]

// Demand 3 and document 01's examples: theorems over what the calls promise. There is no code here.
#![tactic(auto)]

// Document 01's examples marked P, proved of what the calls promise. There is no code here.
#![tactic(auto)]

// Request A4's promises over what the calls of a line answer and leave in their buffers. There is no code here.
#![tactic(auto)]

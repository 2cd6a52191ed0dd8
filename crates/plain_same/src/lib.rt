// Request A11's theorem: on every input the plain engine's calls answer and leave what the quick engine's do. There is no code
// here.
#![tactic(auto)]

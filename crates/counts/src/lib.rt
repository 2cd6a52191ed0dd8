// Request A10 over any list of arrival calls: the counts that they leave, and what the missing ones say of an origin. There is
// no code here.
#![tactic(auto)]

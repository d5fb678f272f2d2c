// What the calls answer: what was done, or why the call was refused. What each answer means, and what a call leaves in the lent bytes, stands in
// specs/Promise.
#![tactic(auto)]

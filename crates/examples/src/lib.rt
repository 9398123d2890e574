// The examples of the papers, computed (specs/): the sheets to try and the boundary cases. No function: what is shown is what the definitions give.

#![tactic(auto)]

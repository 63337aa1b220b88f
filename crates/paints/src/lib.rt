// Theorems about what the machine's drawing instructions paint, over the definitions. There is no code here.
#![tactic(auto)]

// Theorems about the drawing, over its definitions. There is no code here.
#![tactic(auto)]

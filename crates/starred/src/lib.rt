// Document 01's starred cases, over its definitions. There is no code here.
#![tactic(auto)]

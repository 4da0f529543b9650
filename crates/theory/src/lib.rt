// No code: the definitions of Boichut, Hugot and Boiret, and their laws.
#![tactic(auto)]

// What memory holds moves as the theory does. Laws alone, no code.
#![tactic(auto)]

// No code: the theorems above the controller and the batch. `specs/` describes whole commands and the acts that a list
// of events contains; `proofs/Demand3.antt` says that the controller is a plain machine doing these acts.
#![tactic(auto)]

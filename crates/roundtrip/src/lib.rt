// No code: the theorems on the wire format, in proofs/RoundTrip.antt.
#![tactic(auto)]

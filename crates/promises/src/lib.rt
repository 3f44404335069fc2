#![tactic(auto)]

// What Kolidamuth promises, as theorems: specs/ is the part to read, and in proofs/ the theorems that stand on a theorem or a worked example
// there. The crate has no code.

#![tactic(auto)]

// Shortest walks in a graph of numbers, as theorems: what a labelling by costs must meet, breadth-first search, and what keeps it in
// range. The crate has no code, and knows no strings and no bytes.

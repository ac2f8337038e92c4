// Counting over the numbers below a bound: whether a test holds at one, at how many it holds, which is the first, and
// the list of a function's values. Definitions and laws only; there is no code.
#![tactic(auto)]

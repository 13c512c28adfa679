// Tests of graphs that no row can say: what solvers find of the graph of one small program, by hand.
#![tactic(auto)]

#[cfg(test)]
mod small;
#[cfg(test)]
mod solved;

// The calls of each crate against values from outside and against each other, as far as the programs can't be run on them.
mod example;
mod histories;
mod leftmost_pivots;
mod searches;

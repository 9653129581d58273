// The calls of each crate against values from outside.
mod entries;
mod matrices;
mod multiples;
mod pieces;
mod reading;
mod residues;
mod rows;
mod shapes;
mod streams;
mod weights;
mod writing;

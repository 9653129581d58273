// The calls of each crate against values from outside and against each other, as far as the programs can't be run on them.
mod added_rows;
mod alone;
mod complements;
mod leads;
mod matrices;
mod plain_forms;
mod reordered;
mod triangles;

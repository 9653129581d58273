// The calls of each crate against values from outside, as far as the programs can't be run on them: streams that fail, workers that are
// held, and calls below the programs.
mod accepted_words;
mod batches;
mod desks;
mod plain_ranks;
mod runs;
mod several_workers;

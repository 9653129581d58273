// How many rows a basis is made of at a time.
ghost use Rattle.std.specs.Prelude.{◌≤◌};

/// How many rows a chunk has, of those that have an entry and are no pivot's. Any two numbers will do: they decide about time and
/// memory alone.
#[derive(Clone, Copy, Debug)]
pub struct ChunkSize {
    /// At least so many rows, where so many are left; 0 is as 1.
    pub rows: u32,
    /// As many rows as have about so many places in a dense block on the columns that are left, or up to four times as many below a
    /// basis of many rows or after a chunk without an independent row; while rows are independent, no more than the basis lacks, and some.
    pub places: u32,
}

// How many rows a chunk had, and how many more the basis has by them.
#[derive(Clone, Copy, Debug)]
pub(crate) struct Gain {
    pub(crate) rows: u32,
    pub(crate) gained: u32,
}

// Before the first chunk.
pub(crate) const NO_CHUNK: Gain = Gain { rows: 0, gained: 0 };

impl Gain {
    // Whether half of the rows at least were independent.
    fn is_independent(self) -> bool {
        self.rows / 2 <= self.gained
    }
}

// A block of 16 MB where the modulus is below 2^31.
pub(crate) const CHUNK: ChunkSize = ChunkSize {
    rows: 256,
    places: 1 << 22,
};

// A chunk has so many times the rows of the basis, which is eliminated again with it.
const TIMES_THE_BASIS: u32 = 4;

// But so many times the places at most.
const TIMES_THE_PLACES: u32 = 4;

// A basis lacks few rows if they are no more than one in so many of those that it has.
const FEW_LACKING: usize = 16;

// While rows are independent a chunk has so many more of them than the basis lacks, since a few may not be.
const SPARE_ROWS: usize = 32;

// After a chunk without an independent row the next one has so many times its rows at least: a basis of a matrix of less than full rank
// lacks a few rows for ever, and each chunk costs a worker room for a whole row.
const TIMES_THE_CHUNK: u32 = 2;

impl ChunkSize {
    // How many rows the next chunk has on so many columns, below a basis of so many rows: some times as many after rows that were not
    // independent. While rows are independent, and if the basis lacks few, it is no more than the basis lacks, and some.
    pub(crate) fn rows_below(&self, basis: u32, columns: usize, last: Gain) -> u32
        ensures { 1 ≤ result }
    {
        let least = (self.places as usize / columns.max(1)) as u32;
        let most = least.saturating_mul(TIMES_THE_PLACES);
        let mut count = basis.saturating_mul(TIMES_THE_BASIS).min(most);
        if last.is_independent() || lacks_few(basis, columns) {
            let lacking = columns.saturating_sub(basis as usize);
            count = lacking
                .saturating_add(SPARE_ROWS)
                .min(count.max(least) as usize) as u32;
        }
        if last.gained == 0 {
            count = count.max(last.rows.saturating_mul(TIMES_THE_CHUNK).min(most));
        }
        count.max(self.rows).max(1)
    }
}

// Whether a basis of so many rows has nearly one for each of so many columns, so that its reduced form has few entries.
pub(crate) fn lacks_few(basis: u32, columns: usize) -> bool {
    0 < basis && columns.saturating_sub(basis as usize) <= basis as usize / FEW_LACKING
}

// Rows in another order, and their columns too.
ghost use Rattle.sparse_rows.specs.Rows.{LARGEST_SIZE, AreBelow, AreDistinct, AreEnoughInSomeOrder, narrowed, selected};
ghost use Rattle.std.specs.Prelude.{◌≡◌, ◌<◌, ◌≤◌, length, map, All, IfOk, OnOk};
ghost use Rattle.weight_order.specs.Rearranged.{ArePlacesIn, paired};

use sparse_rows::Rows;
use std::alloc::{AllocError, Global};

// These rows in this order, with these columns in that order, where all entries stand in them: in time by the width and the entries,
// times a logarithm of how many a row has, and memory for what is made, with 4 bytes a column and room for one row. Each row is sorted
// where it lies in the caches; a transposed matrix would take a write to another page of memory for each entry, twice.
pub(crate) fn rearranged(
    alloc: Global,
    matrix: &Rows,
    rows: &[u32],
    columns: &[u32],
) -> Result<Rows, AllocError>
    requires few_rows { length rows.now ≤ LARGEST_SIZE }
    requires rows { All (λ i. i < matrix.now.matrix.height) rows.now }
    requires few_columns { length columns.now ≤ LARGEST_SIZE }
    requires columns { AreEnoughInSomeOrder matrix.now.matrix columns.now }
    ensures modulus { IfOk result (λ made. made.modulus ≡ matrix.now.modulus) }
    ensures matrix { IfOk result (λ made. made.matrix
        ≡ selected (narrowed matrix.now.matrix columns.now) rows.now) }
{
    let places = places(alloc, matrix.width(), columns)?;
    let mut made = Rows::with_room(
        alloc,
        matrix.modulus(),
        columns.len() as u32,
        rows.len() as u32,
        matrix.entries() as usize,
    )?;
    let (mut pairs, mut cols, mut vals) = (Vec::new(alloc), Vec::new(alloc), Vec::new(alloc));
    for i in rows {
        pair(matrix.cols(*i), matrix.vals(*i), &places, &mut pairs)?;
        pairs.sort_unstable_by_key(|entry| entry.0);
        part(&pairs, &mut cols, &mut vals)?;
        made.append_entries(&cols, &vals)?;
    }
    Ok(made)
}

// For each column its place among these, which are below n.
fn places(alloc: Global, n: u32, columns: &[u32]) -> Result<Vec<u32>, AllocError>
    requires few { length columns.now ≤ LARGEST_SIZE }
    requires below { AreBelow n columns.now }
    requires distinct { AreDistinct columns.now }
    ensures long { IfOk result (λ places. length places.items ≡ n) }
    ensures places { IfOk result (λ places. ArePlacesIn columns.now places.items) }
{
    let mut places = vec![in alloc; 0; n as usize]?;
    for k in 0..columns.len() {
        places[columns[k] as usize] = k as u32;
    }
    Ok(places)
}

// Makes `pairs` the places of a row's columns with its values.
fn pair(
    cols: &[u32],
    vals: &[u64],
    places: &[u32],
    pairs: &mut Vec<(u32, u64)>,
) -> Result<(), AllocError>
    requires long { length vals.now ≡ length cols.now }
    requires below { AreBelow (length places.now) cols.now }
    ensures { OnOk result (pairs.new.items ≡ paired places.now cols.now vals.now) }
{
    pairs.clear();
    pairs.reserve(cols.len())?;
    for k in 0..cols.len() {
        pairs.push_reserved((places[cols[k] as usize], vals[k]));
    }
    Ok(())
}

// Makes `cols` and `vals` the two sides of these pairs.
fn part(pairs: &[(u32, u64)], cols: &mut Vec<u32>, vals: &mut Vec<u64>) -> Result<(), AllocError>
    ensures cols { OnOk result (cols.new.items ≡ map (λ q. q.0) pairs.now) }
    ensures vals { OnOk result (vals.new.items ≡ map (λ q. q.1) pairs.now) }
{
    cols.clear();
    vals.clear();
    cols.reserve(pairs.len())?;
    vals.reserve(pairs.len())?;
    for entry in pairs {
        cols.push_reserved(entry.0);
        vals.push_reserved(entry.1);
    }
    Ok(())
}

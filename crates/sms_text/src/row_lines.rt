// The lines of some entries of a row.
ghost use Rattle.std.specs.Prelude.{◌≡◌, ℕ, ◌+◌, ◌<◌, ◌≤◌, List, [], ◌∷◌, ◌++◌, length, drop};
ghost use Rattle.sparse_rows.specs.Rows.{AreBelow};
ghost use Rattle.std.specs.Fmt.{decimal};
ghost use Rattle.sms_text.specs.declared.reader.TheConstants.{LARGEST_TEXT_SIZE};
ghost use Rattle.sms_text.specs.Written.{entry_lines};

use crate::six_digits::put_number;
use std::marker::Model;

// What stands in front of each line of a row but the first: the end of the line before, the row's number and a space. They end with the
// array, so that a copy of its second half, of a size that is known, puts them.
#[derive(Drop)]
struct RowStart {
    bytes: [u8; 32],
    from: usize,
}

impl Model for RowStart {
    ghost Value = { List ℕ };

    ghost view = { λ s. drop s.from s.bytes };

    ghost invariant = { λ s. (20 ≤ s.from) × (s.from ≤ 32) };
}

impl RowStart {
    fn of(i: u32) -> RowStart
        ensures { result ≡ 10 ∷ decimal i ++ 32 ∷ [] }
    {
        let mut bytes = [b' '; 32];
        let from = put_number(u64::from(i), &mut bytes, 31) - 1;
        bytes[from] = b'\n';
        RowStart { bytes, from }
    }

    // Puts them so that they end at `end`, and tells where they begin. Bytes before may change, too.
    #[inline(always)]
    fn put(&self, bytes: &mut [u8], end: usize) -> usize
        requires { (32 ≤ end) × (end ≤ length bytes.old) }
        ensures start { result + length self.now ≡ end }
        ensures short { length self.now ≤ 12 }
        ensures written { drop result bytes.new ≡ self.now ++ drop end bytes.old }
    {
        bytes[end - 16..end].copy_from_slice(&self.bytes[16..]);
        end - 32 + self.from
    }

    // Puts a line of this row without its end, so that it ends at `end`, and the end of the line before. It tells where that stands.
    #[inline(always)]
    fn put_line(&self, j: u32, v: u64, bytes: &mut [u8], end: usize) -> usize
        requires { (64 ≤ end) × (end ≤ length bytes.old) }
        ensures within { (result ≤ end) × (end ≤ result + 43) }
        ensures written { drop result bytes.new
            ≡ self.now ++ decimal j ++ 32 ∷ decimal v ++ drop end bytes.old }
    {
        let at = put_number(v, bytes, end);
        bytes[at - 1] = b' ';
        let at = put_number(u64::from(j), bytes, at - 1);
        self.put(bytes, at)
    }
}

// The lines of at most 64 entries of a row. They are made from the last to the first, as digits are: a number's leading zeros are
// written over by what stands in front of it.
#[derive(Drop)]
pub(crate) struct RowLines {
    bytes: [u8; 4096],
    from: usize,
}

impl Model for RowLines {
    ghost Value = { List ℕ };

    ghost view = { λ l. drop l.from l.bytes };

    ghost invariant = { λ l. l.from ≤ 4096 };
}

impl RowLines {
    pub(crate) fn new() -> RowLines
        ensures { result ≡ [] }
    {
        RowLines {
            bytes: [0; 4096],
            from: 4096,
        }
    }

    // Makes the lines of these entries of row i.
    pub(crate) fn fill(&mut self, i: u32, cols: &[u32], vals: &[u64])
        requires row { i < LARGEST_TEXT_SIZE }
        requires few { length cols.now ≤ 64 }
        requires same_length { length vals.now ≡ length cols.now }
        requires below { AreBelow LARGEST_TEXT_SIZE cols.now }
        ensures { self.new ≡ entry_lines i cols.now vals.now }
    {
        let start = RowStart::of(i + 1);
        let mut at = 4095;
        self.bytes[at] = b'\n';
        for k in (0..cols.len()).rev() {
            at = start.put_line(cols[k] + 1, vals[k], &mut self.bytes, at);
        }
        self.from = at + 1;
    }

    pub(crate) fn bytes(&self) -> &[u8]
        ensures value { result.now ≡ self.now }
        ensures bound { length result.now ≤ 4096 }
    {
        &self.bytes[self.from..]
    }
}

// Rows that are kept, reduced and settled, as worked by hand.
ghost use Rattle.std.specs.Prelude.{◌≡◌};

use crate::tests::matrices::has_entries;
use residue_words::Modulus;
use std::alloc::Global;
use triangular_solve::Leads;

// Whether three rows are inserted, the last of which is a combination of the others.
fn inserts_two_of_three(kept: &mut Leads) -> bool
    requires modulus { kept.old.modulus ≡ 7 }
    requires width { kept.old.matrix.width ≡ 3 }
    ensures modulus { kept.new.modulus ≡ 7 }
    ensures width { kept.new.matrix.width ≡ 3 }
{
    let first = kept.insert(&[0, 1, 2], &[2, 4, 1]);
    let second = kept.insert(&[0, 1], &[1, 2]);
    let third = kept.insert(&[0, 1, 2], &[3, 6, 1]);
    [first, second, third] == [Ok(Some(0)), Ok(Some(2)), Ok(None)]
}

// Whether the kept rows leave (0, 5, 0) of the row (1, 0, 0).
fn leaves_the_rest(alloc: Global, kept: &Leads) -> bool
    requires modulus { kept.now.modulus ≡ 7 }
    requires width { kept.now.matrix.width ≡ 3 }
{
    let Ok(rest) = kept.rest(alloc, &[0], &[1]) else {
        return false;
    };
    has_entries(&rest, &[1], &[5])
}

// Whether two rows are kept, of which the first is (1, 2, 0) where it is settled.
fn settles_the_first(alloc: Global, kept: &Leads) -> bool {
    if kept.height() != 2 {
        return false;
    }
    let Ok(settled) = kept.settle(alloc, 0) else {
        return false;
    };
    has_entries(&settled, &[0, 1], &[1, 2])
}

// Whether all of it is as worked.
fn is_as_worked(alloc: Global) -> [bool; 3] {
    let Ok(mut kept) = Leads::new(alloc, 3, &Modulus::new(7)) else {
        return [false; 3];
    };
    [
        inserts_two_of_three(&mut kept),
        leaves_the_rest(alloc, &kept),
        settles_the_first(alloc, &kept),
    ]
}

#[test]
fn rows_are_kept_reduced_and_settled(rt: HostRuntime) {
    assert!(rt; is_as_worked(rt.alloc()) == [true; 3]);
}

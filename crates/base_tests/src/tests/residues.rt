// Each call against values from outside.
ghost use Rattle.std.specs.Prelude.{◌<◌, ◌≤◌};

use residue_words::{Fold, LANE_BOUND, MODULUS_BOUND, Modulus, Shoup};

// Each row: p, a, b, then a + b, a - b, -a and a b modulo p.
const OPERATIONS: &[(u64, u64, u64, [u64; 4])] = &[
    (2, 1, 1, [0, 0, 1, 1]),
    (7, 3, 6, [2, 4, 4, 4]),
    (42013, 14005, 21007, [35012, 35011, 28008, 28009]),
    (4294967296, 4294967295, 4294967295, [4294967294, 0, 1, 1]),
    (
        4294967296,
        1431655766,
        2147483649,
        [3579139415, 3579139413, 2863311530, 1431655766],
    ),
    (
        4294967311,
        1431655771,
        2147483656,
        [3579139427, 3579139426, 2863311540, 2863311541],
    ),
    (
        281474976710597,
        281474976710596,
        281474976710596,
        [281474976710595, 0, 1, 1],
    ),
    (
        281474976710597,
        93824992236866,
        140737488355299,
        [
            234562480592165,
            234562480592164,
            187649984473731,
            46912496118433,
        ],
    ),
];

// Each row: p, a, and the inverse of a.
const INVERSES: &[(u64, u64, u64)] = &[
    (2, 1, 1),
    (42013, 5, 25208),
    (2147483647, 2147483646, 2147483646),
    (281474976710597, 2, 140737488355299),
    (281474976710597, 281474976710596, 281474976710596),
    (281474976710597, 123456789012345, 620967110571),
];

// Each row: p, a, the quotient of a 2^32 by p, y, and a y modulo p.
const PREPARED: &[(u64, u64, u64, u64, u64)] = &[
    (2, 1, 2147483648, 2147483647, 1),
    (7, 3, 1840700269, 5, 1),
    (7, 3, 1840700269, 2147483647, 3),
    (2147483647, 2147483646, 4294967293, 2147483646, 1),
    (2147483647, 2147483646, 4294967293, 2147483647, 0),
];

// Each row: the digits, p, the residue of the number, and whether the number is 0.
const FOLDS: &[(&str, u64, u64, bool)] = &[
    ("", 7, 0, true),
    ("000", 7, 0, true),
    ("0007", 7, 0, false),
    ("2147483648", 2147483647, 1, false),
    (
        "100000000000000000000000000000000000000000000000000000000000",
        7,
        5,
        false,
    ),
    (
        "9999999999999999999999999999999999999999",
        281474976710597,
        81989078893902,
        false,
    ),
    (
        "12345678901234567890123456789012345678901234567890",
        281474976710597,
        55404691184414,
        false,
    ),
];

// The sum, the difference, the negative and the product of residues, the modulus, and the residue of their sum as a number.
fn results(p: &Modulus, a: u64, b: u64) -> ([u64; 4], u64, u64)
    requires first { a < p.now }
    requires second { b < p.now }
{
    let modulus = p.p();
    (
        [p.add(a, b), p.sub(a, b), p.neg(a), p.mul(a, b)],
        modulus,
        p.residue(a + b),
    )
}

// Whether they are these.
fn has_results(p: u64, a: u64, b: u64, wanted: [u64; 4]) -> bool {
    let [sum, ..] = wanted;
    2 <= p
        && p < MODULUS_BOUND
        && a < p
        && b < p
        && results(&Modulus::new(p), a, b) == (wanted, p, sum)
}

// Whether a residue has this inverse.
fn has_inverse(p: u64, a: u64, inverse: u64) -> bool {
    2 <= p && p < MODULUS_BOUND && 0 < a && a < p && Modulus::new(p).inv(a) == inverse
}

// Whether a prepared factor has this quotient, and such a product.
fn is_prepared(p: u64, a: u64, quotient: u64, y: u64, product: u64) -> bool {
    if p < 2 || LANE_BOUND <= p || p <= a || LANE_BOUND <= y {
        return false;
    }
    let prepared = Shoup::of(a, &Modulus::new(p));
    (prepared.quotient(), prepared.times(y)) == (quotient, product)
}

// What a text of digits alone folds to: the residue, and whether the number is 0.
fn folded(digits: &str, p: &Modulus) -> (u64, bool) {
    let mut fold = Fold::new(p);
    for digit in digits.bytes() {
        fold.push_digit(digit.saturating_sub(b'0').min(9));
    }
    (fold.value(), fold.is_zero_integer())
}

// Whether they fold to this.
fn folds_to(digits: &str, p: u64, value: u64, is_zero: bool) -> bool {
    2 <= p && p < MODULUS_BOUND && folded(digits, &Modulus::new(p)) == (value, is_zero)
}

// Each of these four is the first row of a table that the calls don't agree with.
fn wrong_operation() -> Option<usize> {
    for (k, (p, a, b, wanted)) in OPERATIONS.iter().enumerate() {
        if !has_results(*p, *a, *b, *wanted) {
            return Some(k);
        }
    }
    None
}

fn wrong_inverse() -> Option<usize> {
    for (k, (p, a, inverse)) in INVERSES.iter().enumerate() {
        if !has_inverse(*p, *a, *inverse) {
            return Some(k);
        }
    }
    None
}

fn wrong_product() -> Option<usize> {
    for (k, (p, a, quotient, y, product)) in PREPARED.iter().enumerate() {
        if !is_prepared(*p, *a, *quotient, *y, *product) {
            return Some(k);
        }
    }
    None
}

fn wrong_fold() -> Option<usize> {
    for (k, (digits, p, value, is_zero)) in FOLDS.iter().enumerate() {
        if !folds_to(digits, *p, *value, *is_zero) {
            return Some(k);
        }
    }
    None
}

#[test]
fn calls_agree_with_values_from_outside(rt: HostRuntime) {
    let wrong = [
        wrong_operation(),
        wrong_inverse(),
        wrong_product(),
        wrong_fold(),
    ];
    assert_eq!(rt; wrong, [None, None, None, None]);
}

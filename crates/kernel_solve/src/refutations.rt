// Laws of refuting combinations: each contract is a fact, and the body is empty.
ghost use Rattle.kernel_solve.specs.Refuted.{FirstHitRefutes, UnsolvableIsHit};

/// Of the kernel basis of A transposed, the first row whose product with b isn't 0, divided by that product, is the refuting
/// combination of A x = b, for a prime modulus.
pub fn first_hit_refutes()
    ensures { FirstHitRefutes }
{}

/// Where A x = b has no solution, some row of the kernel basis of A transposed has a product with b that isn't 0, for a prime
/// modulus.
pub fn unsolvable_is_hit()
    ensures { UnsolvableIsHit }
{}
